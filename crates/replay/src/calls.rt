// What may be asked of a sheet.
#[derive(Clone, Copy)]
pub enum Call<'a, X> {
    // This sample is to be this value.
    Edit(usize, X),
    // Every sample is to be the one so far after it, round the circle.
    Shift(usize),
    Mirror,
    // These samples are to be added, place by place.
    Lay(&'a [X]),
    // This tone is to be read.
    Tone(usize),
}
