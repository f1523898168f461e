ghost use Rattle.std.specs.Prelude.{◌≡◌, ◌++◌, OnOk};
ghost use Rattle.std.specs.List.{flat_map};
ghost use Rattle.trace_text.specs.Texts.{next_field, reply_line, reply_text};

use crate::print::{append_field, append_number, append_sized};
use name_store::NameList;
use path_walk::Reply;
use std::alloc::AllocError;

/// Appends each name as a field.
pub fn append_names(text: &mut Vec<u8>, names: &NameList) -> Result<(), AllocError>
    ensures { OnOk result (text.new.items ≡ text.old.items ++ flat_map next_field names.now) }
{
    let names = names.as_slice();
    for name in names {
        append_field(text, name.as_bytes())?;
    }
    Ok(())
}

fn append_reply(text: &mut Vec<u8>, reply: &Reply) -> Result<(), AllocError>
    ensures { OnOk result (text.new.items ≡ text.old.items ++ reply_text reply.now) }
{
    match reply {
        Reply::Done => text.extend_from_slice(b"ok"),
        Reply::Dir => text.extend_from_slice(b"ok dir"),
        Reply::File(size) => append_sized(text, b"ok file ", *size),
        Reply::Link(size) => append_sized(text, b"ok link ", *size),
        Reply::Text(link) => {
            text.extend_from_slice(b"ok")?;
            append_field(text, link.as_bytes())
        }
        Reply::Names(names) => {
            text.extend_from_slice(b"ok")?;
            append_names(text, names)
        }
        Reply::Fd(number) => append_sized(text, b"ok ", u64::from(*number)),
        Reply::Bytes(bytes) => {
            text.extend_from_slice(b"ok")?;
            append_field(text, bytes.as_bytes())
        }
        Reply::Count(count) => append_sized(text, b"ok ", *count),
        Reply::At(offset) => append_sized(text, b"ok ", *offset),
        Reply::Fault(errno) => text.extend_from_slice(errno.word().as_bytes()),
    }
}

/// Appends the line `reply THREAD N REPLY`, which takes the time of the line.
pub fn push_reply_line(
    text: &mut Vec<u8>,
    thread: &[u8],
    number: u32,
    reply: &Reply,
) -> Result<(), AllocError>
    ensures { OnOk result
        (text.new.items ≡ text.old.items ++ reply_line thread.now number reply.now) }
{
    text.extend_from_slice(b"reply ")?;
    text.extend_from_slice(thread)?;
    text.push(b' ')?;
    append_number(text, u64::from(number))?;
    text.push(b' ')?;
    append_reply(text, reply)?;
    text.push(b'\n')?;
    Ok(())
}
