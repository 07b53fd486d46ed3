// That calls succeed where there is memory, and how a list is taken apart.
use crate::{Element, elements, file_bytes, front_elements, radices, script};
use fixed::Fixed;
use path::Path;
use pressure::Pressure;
use std::test::Fail;

#[test]
fn lists_are_read(rt: HostRuntime) -> Result<(), Fail> {
    assert_eq!(rt; radices(rt.alloc(), "-")?.len(), 0);
    assert_eq!(rt;
        radices(rt.alloc(), "3,2,8")?.as_slice(),
        [3, 2, 8].as_slice()
    );
    let list = elements::<Path>(rt.alloc(), " 1,2  4294967295,0 ")?;
    let want = [Path { u: 1, v: 2 }, Path { u: u32::MAX, v: 0 }];
    assert_eq!(rt; list.as_slice(), want.as_slice());
    assert!(rt; elements::<Fixed>(rt.alloc(), "3,4 5").is_err());
    Ok(())
}

#[test]
fn any_white_space_parts_a_list(rt: HostRuntime) -> Result<(), Fail> {
    let list = elements::<Pressure>(rt.alloc(), "\t3\t5\u{a0}7\r")?;
    let want = [
        Pressure { word: 3 },
        Pressure { word: 5 },
        Pressure { word: 7 },
    ];
    assert_eq!(rt; list.as_slice(), want.as_slice());
    assert_eq!(rt; elements::<Path>(rt.alloc(), " \t\r")?.len(), 0);
    Ok(())
}

#[test]
fn a_second_comma_ends_what_is_read(rt: HostRuntime) -> Result<(), Fail> {
    assert!(rt; elements::<Path>(rt.alloc(), "1,2,3").is_err());
    let list = front_elements::<Path>(rt.alloc(), "1,2,3\r4,5,x 6,7")?;
    let want = [
        Path { u: 1, v: 2 },
        Path { u: 4, v: 5 },
        Path { u: 6, v: 7 },
    ];
    assert_eq!(rt; list.as_slice(), want.as_slice());
    assert!(rt; front_elements::<Pressure>(rt.alloc(), "1,2,3").is_err());
    Ok(())
}

#[test]
fn readings_are_printed(rt: HostRuntime) -> Result<(), Fail> {
    let mut text = String::new(rt.alloc());
    Pressure::write(7, &mut text)?;
    text.push(' ')?;
    Path::write((1, 2), &mut text)?;
    text.push(' ')?;
    Fixed::write((3, -4), &mut text)?;
    assert_eq!(rt; text.as_str(), "7 1,2 3,-4");
    Ok(())
}

#[test]
fn input_is_read(rt: HostRuntime) -> Result<(), Fail> {
    let long = vec![in rt.alloc(); 7u8; 70_000]?;
    assert_eq!(rt; file_bytes(rt.alloc(), long.as_slice())?.len(), 65_537);
    assert_eq!(rt; script(rt.alloc(), "case\n".as_bytes())?.as_str(), "case\n");
    Ok(())
}
