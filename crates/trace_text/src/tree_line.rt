ghost use Rattle.std.specs.Prelude.{◌≡◌, ◌++◌, ◌+◌, Some, length, option_map, IfSome, OnOk};
ghost use Rattle.file_store.specs.FileBytes.{page_of};
ghost use Rattle.file_store.specs.FileGroups.{file_at};
ghost use Rattle.trace_text.specs.Texts.{contents_text, file_in, named_text, page_line, page_lines, tree_text, up_to_last};

use crate::print::{append_field, append_number, append_sized};
use file_store::Files;
use name_store::TreeLine;
use std::alloc::AllocError;
use wf_core::{FileId, GROUP_COUNT, PAGE_SIZE};

/// The bytes up to the last other than 0.
#[tactic(auto, using(crate::proofs::PageTexts::last_zero, crate::proofs::PageTexts::last_other))]
fn up_to_last(bytes: &[u8]) -> &[u8]
    ensures { result.now ≡ up_to_last bytes.now }
{
    let mut front = bytes;
    while let Some((byte, rest)) = front.split_last() {
        if *byte != 0 {
            return front;
        }
        front = rest;
    }
    front
}

fn append_page(text: &mut Vec<u8>, page: u64, bytes: &[u8]) -> Result<(), AllocError>
    ensures { OnOk result
        (text.new.items ≡ text.old.items ++ page_line page (Some bytes.now)) }
{
    append_sized(text, b"page ", page)?;
    append_field(text, up_to_last(bytes))?;
    text.push(b'\n')?;
    Ok(())
}

/// Appends a page, where it has a byte other than 0.
fn append_page_of(
    text: &mut Vec<u8>,
    files: &Files,
    file: FileId,
    page: u64,
) -> Result<(), AllocError>
    ensures { OnOk result (IfSome (file_at files.now file)
        (λ found. text.new.items ≡ text.old.items ++ page_line page (page_of found.bytes page))) }
{
    match files.page(file, page) {
        Some(bytes) => append_page(text, page, bytes),
        None => Ok(()),
    }
}

/// Appends the pages of a file of that size.
fn append_pages(
    text: &mut Vec<u8>,
    files: &Files,
    file: FileId,
    size: u64,
) -> Result<(), AllocError>
    requires { option_map (λ found. length found.bytes) (file_at files.now file) ≡ Some size }
    ensures { OnOk result (IfSome (file_at files.now file)
        (λ found. text.new.items ≡ text.old.items ++ page_lines found.bytes)) }
{
    for page in 0..size.div_ceil(PAGE_SIZE as u64) {
        append_page_of(text, files, file, page)?;
    }
    Ok(())
}

/// Appends what follows a file's name.
fn append_contents(text: &mut Vec<u8>, groups: &[Files], file: FileId) -> Result<(), AllocError>
    ensures { OnOk result (text.new.items
        ≡ text.old.items ++ contents_text (file_in groups.now file)) }
{
    let Some(files) = groups.get((file.number() % GROUP_COUNT) as usize) else {
        return text.extend_from_slice(b" 0\n");
    };
    let Some(size) = files.size(file) else {
        return text.extend_from_slice(b" 0\n");
    };
    append_sized(text, b" ", size)?;
    text.push(b'\n')?;
    append_pages(text, files, file, size)
}

/// Appends `WORD DEPTH NAME`.
pub fn append_named(
    text: &mut Vec<u8>,
    word: &[u8],
    depth: u64,
    name: &[u8],
) -> Result<(), AllocError>
    ensures { OnOk result
        (text.new.items ≡ text.old.items ++ named_text word.now depth name.now) }
{
    text.extend_from_slice(word)?;
    append_sized(text, b" ", depth)?;
    append_field(text, name)
}

/// Appends `dir DEPTH NAME`, `link DEPTH NAME TEXT`, or `file DEPTH NAME SIZE` and a line `page INDEX BYTES` for each
/// page of the file that has a byte other than 0. A mount is a `dir`. `groups` are those of the line's backend, and
/// `deeper` is the depth of the mount in which that stands, and 0 for the root's. It takes the time of the lines, and
/// for each page of a file that of finding it.
pub fn push_tree_line(
    text: &mut Vec<u8>,
    groups: &[Files],
    deeper: u32,
    line: &TreeLine,
) -> Result<(), AllocError>
    ensures { OnOk result
        (text.new.items ≡ text.old.items ++ tree_text groups.now deeper line.now) }
{
    match line {
        TreeLine::Dir { depth, name } | TreeLine::Mount { depth, name, .. } => {
            let depth = u64::from(deeper) + u64::from(*depth);
            append_named(text, b"dir", depth, name.as_bytes())?;
            text.push(b'\n')?;
            Ok(())
        }
        TreeLine::File { depth, name, file } => {
            let depth = u64::from(deeper) + u64::from(*depth);
            append_named(text, b"file", depth, name.as_bytes())?;
            append_contents(text, groups, *file)
        }
        TreeLine::Link {
            depth,
            name,
            text: link,
        } => {
            let depth = u64::from(deeper) + u64::from(*depth);
            append_named(text, b"link", depth, name.as_bytes())?;
            append_field(text, link.as_bytes())?;
            text.push(b'\n')?;
            Ok(())
        }
    }
}
