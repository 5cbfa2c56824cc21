//! What is read in words, by example.
use crate::{Make, bytes_of, code_of, file_of, numbers, renaming_of, slots_of};

#[test]
fn words_are_numbers(rt: HostRuntime) -> anyhow::Result<()> {
    let all = numbers::<u16>(rt.alloc(), &["7", "65535"])?;
    assert_eq!(rt; all.as_slice(), [7u16, 65535].as_slice());
    Ok(())
}

#[test]
fn digits_are_bytes(rt: HostRuntime) -> anyhow::Result<()> {
    let file = file_of(rt.alloc(), "00ff")?;
    assert_eq!(rt; file.as_slice(), [0u8, 255].as_slice());
    Ok(())
}

#[test]
fn only_a_file_may_be_a_stroke(rt: HostRuntime) -> anyhow::Result<()> {
    assert!(rt; file_of(rt.alloc(), "-")?.is_empty());
    assert!(rt; bytes_of(rt.alloc(), "-").is_err());
    Ok(())
}

#[test]
fn digits_stand_in_lower_case(rt: HostRuntime) -> anyhow::Result<()> {
    let bytes = bytes_of(rt.alloc(), "0aff")?;
    assert_eq!(rt; bytes.as_slice(), [10u8, 255].as_slice());
    assert!(rt; bytes_of(rt.alloc(), "0AFF").is_err());
    assert!(rt; file_of(rt.alloc(), "0aFf").is_err());
    Ok(())
}

#[test]
fn runs_are_slots(rt: HostRuntime) -> anyhow::Result<()> {
    let slots = slots_of(rt.alloc(), &[2, 5, 1, 0])?;
    assert_eq!(rt; slots.as_slice(), [5u8, 5, 0].as_slice());
    Ok(())
}

#[test]
fn a_sign_is_no_part_of_a_number(rt: HostRuntime) -> anyhow::Result<()> {
    assert!(rt; numbers::<u16>(rt.alloc(), &["7", "+5"]).is_err());
    Ok(())
}

#[test]
fn a_make_is_its_word(rt: HostRuntime) -> anyhow::Result<()> {
    assert!(rt; "grid".parse::<Make>()? == Make::Grid);
    assert_eq!(rt; Make::Chained.to_string(rt.alloc())?.as_str(), "chained");
    assert!(rt; "Grid".parse::<Make>().is_err());
    Ok(())
}

#[test]
fn a_comment_is_no_code(rt: HostRuntime) {
    assert_eq!(rt; code_of("  put 2 5\t# not # read"), "put 2 5");
}

#[test]
fn places_past_a_renaming_stand_for_themselves(rt: HostRuntime) -> anyhow::Result<()> {
    let row = renaming_of(vec![in rt.alloc(); 1u8, 0]?)?;
    assert_eq!(rt; row.len(), 64);
    assert_eq!(rt; row.first_chunk::<4>(), Some(&[1u8, 0, 2, 3]));
    assert_eq!(rt; row.as_slice()[63], 63u8);
    Ok(())
}
