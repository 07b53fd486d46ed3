// How a stroke is written in a case.
use std::alloc::Global;
use writing::Lent;

// Two lists, as they are lent: a stroke may have no pressures.
#[derive(Drop)]
pub(crate) struct Given {
    path: Vec<(i16, i16)>,
    pressure: Option<Vec<u16>>,
}

// The value of a word, and how many times it stands there.
fn times(word: &str) -> anyhow::Result<(&str, usize)> {
    match word.split_once('*') {
        Some((value, count)) => Ok((value, count.parse()?)),
        None => Ok((word, 1)),
    }
}

// Both words at once: the library's `parse` is named by its type, and the words of an element are of others.
fn pair(value: &str) -> anyhow::Result<(i16, i16)> {
    let mut words = value.split(',');
    let x = words.next().unwrap_or("").parse()?;
    let y = words.next().unwrap_or("").parse()?;
    Ok((x, y))
}

// As the reading of a radix but for the type, at which alone the library says what a text is parsed to.
fn count(value: &str) -> anyhow::Result<u16> {
    Ok(value.parse()?)
}

// The values of the words, each as many times as it stands there.
fn values<T: Copy, F: Fn(&str) -> anyhow::Result<T>>(
    heap: Global,
    text: &str,
    read: F,
) -> anyhow::Result<Vec<T>>
    requires { F.IsAlwaysCallable read }
{
    let mut list = Vec::new(heap);
    for word in text.split_whitespace() {
        let (value, count) = times(word)?;
        let value = read(value)?;
        // One at a time: `resize` makes no more room than it is asked for, and the next word then doubles it.
        for _ in 0..count {
            list.push(value)?;
        }
    }
    Ok(list)
}

impl Given {
    pub(crate) fn parse(heap: Global, text: &str) -> anyhow::Result<Given> {
        let mut parts = text.split('/');
        let path = values(heap, parts.next().unwrap_or(""), pair)?;
        let pressure = parts.next().unwrap_or("");
        let pressure = if pressure.trim() == "-" {
            None
        } else {
            Some(values(heap, pressure, count)?)
        };
        Ok(Given { path, pressure })
    }

    pub(crate) fn lent(&self) -> Lent<'_> {
        Lent {
            path: self.path.as_slice(),
            pressure: self.pressure.as_deref(),
        }
    }
}
