ghost use Rattle.std.specs.Prelude.{◌≡◌, ◌<◌, ◌≤◌, ◌+◌, ◌^◌, length, vec_len, vec_capacity, codes, IfSome, IfNone, OnErr};
ghost use Rattle.std.specs.List.{flat_map};
ghost use Rattle.object.specs.Results.{WritesAtEnd};
ghost use Rattle.bean_codec.specs.Lines.{line_text};
ghost use Rattle.bean_codec.specs.Replies.{data_text, tube_text, tubes_data};

use crate::append::append_count;
use bean_words::Name;
use std::alloc::AllocError;

/// Writes a list of tubes at the end. Where memory runs out, a part of it may stand there.
#[tactic(auto, unfolding(crate::specs::Replies::data_text))]
pub fn append_tubes(names: &[Name], out: &mut Vec<u8>) -> Result<(), AllocError>
    ensures ok { WritesAtEnd result out.old out.new (data_text (tubes_data names.now)) }
    ensures full { OnErr result
        (vec_capacity out.old < vec_len out.old + length (data_text (tubes_data names.now))) }
{
    let Some(size) = size_of_data(names) else {
        return Err(AllocError);
    };
    append_count(b"OK", size, out)?;
    append_data(names, out)?;
    out.extend_from_slice(b"\r\n")
}

/// How many bytes the data of a list has, where they can be counted.
#[tactic(auto, unfolding(crate::specs::Replies::tubes_data))]
fn size_of_data(names: &[Name]) -> Option<u64>
    ensures counted { IfSome result (λ size. size ≡ length (tubes_data names.now)) }
    ensures too_long { IfNone result (2 ^ 64 ≤ length (tubes_data names.now)) }
{
    let mut size: u64 = 4;
    for name in names {
        size = size.checked_add(size_of_tube(name))?;
    }
    Some(size)
}

/// How many bytes one tube of a list has.
#[tactic(auto, unfolding(crate::specs::Replies::tube_text))]
fn size_of_tube(name: &Name) -> u64
    ensures { result ≡ length (tube_text name.now) }
{
    name.as_slice().len() as u64 + 3
}

/// Writes the data of a list at the end.
#[tactic(auto, unfolding(crate::specs::Replies::tubes_data))]
fn append_data(names: &[Name], out: &mut Vec<u8>) -> Result<(), AllocError>
    ensures ok { WritesAtEnd result out.old out.new (tubes_data names.now) }
    ensures full { OnErr result
        (vec_capacity out.old < vec_len out.old + length (tubes_data names.now)) }
    ensures room { vec_capacity out.old ≤ vec_capacity out.new }
{
    out.extend_from_slice(b"---\n")?;
    for name in names {
        append_tube(name, out)?;
    }
    Ok(())
}

/// Writes one tube of a list at the end.
#[tactic(auto, unfolding(crate::specs::Replies::tube_text))]
fn append_tube(name: &Name, out: &mut Vec<u8>) -> Result<(), AllocError>
    ensures ok { WritesAtEnd result out.old out.new (tube_text name.now) }
    ensures full { OnErr result
        (vec_capacity out.old < vec_len out.old + length (tube_text name.now)) }
    ensures room { vec_capacity out.old ≤ vec_capacity out.new }
{
    out.extend_from_slice(b"- ")?;
    out.extend_from_slice(name.as_slice())?;
    out.extend_from_slice(b"\n")
}
