ghost use Rattle.std.specs.Prelude.{◌≡◌, find};
ghost use Rattle.std.specs.Option.{option_copied};
ghost use Rattle.std.specs.Str.{bytes_eq};
ghost use Rattle.pa_io.specs.Files.{file_of};
ghost use Rattle.pa_io.specs.Answer.{file_answer, Gives};

use crate::outside::ShelfFault;
use pa_num::{Bytes, Name, Sequence};
use std::alloc::Global;

/// A file in memory.
#[derive(Debug, Drop)]
pub struct MemFile {
    /// The name by which a shelf is asked for it.
    pub name: Name,
    /// All its bytes.
    pub bytes: Bytes,
}

impl MemFile {
    /// The file of that name with these bytes.
    pub fn new(name: Name, bytes: Bytes) -> MemFile
        ensures { result ≡ record { name = name; bytes = bytes } }
    {
        MemFile { name, bytes }
    }
}

/// Files in order. Of several files of one name the first counts.
pub type MemFiles = Sequence<MemFile>;

fn first_file<'a>(files: &'a [MemFile], name: &[u8]) -> Option<&'a MemFile>
    ensures { option_copied result ≡ find (λ file. bytes_eq file.name name.now) files.now }
{
    files.iter().find(|file| file.name.as_slice() == name)
}

/// The bytes of the first file of that name.
pub(crate) fn find_file<'a>(files: &'a [MemFile], name: &[u8]) -> Option<&'a [u8]>
    ensures { option_copied result ≡ file_of files.now name.now }
{
    let file = first_file(files, name)?;
    Some(file.bytes.as_slice())
}

/// A copy of the whole file, where there is one of at most `limit` bytes.
pub(crate) fn copy_file(
    alloc: Global,
    file: Option<&[u8]>,
    limit: u64,
) -> Result<Vec<u8>, ShelfFault>
    ensures { Gives result (file_answer (option_copied file.entry) limit) }
{
    let bytes = file.ok_or(ShelfFault::Failed)?;
    if bytes.len() as u64 > limit {
        return Err(ShelfFault::Long);
    }
    Ok(Vec::from_slice(alloc, bytes)?)
}
