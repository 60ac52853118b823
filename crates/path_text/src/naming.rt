//! The names of lists.

ghost use Rattle.std.specs.Prelude.{◌≡◌, IfOk, IsTrue};
ghost use Rattle.path_text.specs.Label.{is_label};
ghost use Rattle.path_text.specs.ListName.{list_name_text};

use crate::label::Label;
use crate::moment::Moment;
use crate::path::PathText;
use std::alloc::{AllocError, Global};

// The most bytes that the name of a list has.
const LIST_NAME_BYTES: usize = 86;

// The bytes of the name of a list.
fn list_name_bytes(alloc: Global, name: &Label, started: Moment) -> Result<Vec<u8>, AllocError>
    ensures text { IfOk result (λ bytes. bytes.items ≡ list_name_text name.now started) }
    ensures label { IsTrue (is_label name.now) }
{
    let label = name.as_str().as_bytes();
    let moment = started.text();
    let mut bytes = Vec::with_capacity(alloc, LIST_NAME_BYTES)?;
    bytes.extend_from_slice(label)?;
    bytes.extend_from_slice(b"_")?;
    bytes.extend_from_slice(&moment[..10])?;
    bytes.extend_from_slice(b"_")?;
    bytes.extend_from_slice(&moment[11..13])?;
    bytes.extend_from_slice(&moment[14..16])?;
    bytes.extend_from_slice(&moment[17..19])?;
    bytes.extend_from_slice(b".mhl")?;
    Ok(bytes)
}

/// The path of the list of a card that was started then, at the top of a drive: NAME, `_`, `YYYY-MM-DD`, `_`, `HHMMSS`,
/// `.mhl` (docs/FORMATS.md, "List names").
pub fn list_name(alloc: Global, name: &Label, started: Moment) -> Result<PathText, AllocError>
    ensures { IfOk result (λ path. path ≡ list_name_text name.now started) }
{
    let bytes = list_name_bytes(alloc, name, started)?;
    match String::from_utf8(bytes) {
        Ok(text) => Ok(PathText::of(text)),
        Err(_) => unreachable!(),
    }
}

#[cfg(test)]
mod tests {
    use super::*;
    use std::test::Fail;

    #[test]
    fn names_lists(rt: HostRuntime) -> Result<(), Fail> {
        let table = [
            ("A001", 1_414_152_000, "A001_2014-10-24_120000.mhl"),
            ("a", 0, "a_1970-01-01_000000.mhl"),
            ("-.", 253_402_300_799, "-._9999-12-31_235959.mhl"),
            ("_", 1_234_567_890, "__2009-02-13_233130.mhl"),
        ];
        for (name, seconds, text) in table {
            let name = Label::read(name)?;
            let started = Moment::new(seconds).expect(&rt, "a moment");
            let path = list_name(rt.alloc(), &name, started)?;
            assert_eq!(rt; path.as_str(), text);
        }
        Ok(())
    }
}
