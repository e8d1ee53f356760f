//! The files of the system as a shelf. It tells no content.
ghost use Rattle.std.specs.Prelude.{◌≡◌, None, false, option_copied};

use std::fs;
use std::io::Read;
use std::rt::Files;
use yew_io::{Failed, Shelf};

/// The files that the runtime can reach. Its count of faults rises at each `Err` of the system, and stays at 2^64-1.
#[derive(Drop)]
pub struct FileShelf<'a, R: Files> {
    rt: &'a R,
    file: Option<R::File>,
    faults: u64,
    name: Option<&'a str>,
    failed: bool,
}

impl<'a, R: Files> FileShelf<'a, R> {
    /// No file is open yet.
    pub fn new(rt: &'a R) -> Self
        ensures name { result.name ≡ None }
        ensures failed { result.failed ≡ false }
    {
        FileShelf {
            rt,
            file: None,
            faults: 0,
            name: None,
            failed: false,
        }
    }
}

impl<'a, R: Files> Shelf<'a> for FileShelf<'a, R> {
    ghost files = { λ _. None };

    ghost left = { λ _. None };

    ghost faults = { λ s. s.faults };

    ghost name = { λ s. option_copied s.name };

    ghost failed = { λ s. s.failed };

    fn open(&mut self, file_name: &'a str) -> Result<(), Failed> {
        self.name = Some(file_name);
        self.file = fs::open(self.rt, file_name).ok();
        self.failed = self.file.is_none();
        if self.failed {
            self.faults = self.faults.saturating_add(1);
            return Err(Failed);
        }
        Ok(())
    }

    fn read(&mut self, buf: &mut [u8]) -> Result<usize, Failed> {
        if let Some(file) = &mut self.file {
            if let Ok(count) = file.read(buf) {
                return Ok(count);
            }
        }
        self.failed = true;
        self.faults = self.faults.saturating_add(1);
        Err(Failed)
    }
}

#[cfg(test)]
mod tests {
    use super::*;
    use std::test::Fail;
    use yew_io::{ReadEnd, read_all};

    #[test]
    fn a_file_is_read_and_a_missing_one_is_a_fault(rt: HostRuntime) -> Result<(), Fail> {
        let alloc = rt.alloc();
        fs::write(&rt, "k1", "3 10\n")?;
        let mut shelf = FileShelf::new(&rt);
        let bytes = read_all(alloc, &mut shelf, "k1", 5).ok().ok_or("whole")?;
        assert_eq!(rt; bytes.as_slice(), b"3 10\n".as_slice());
        assert_eq!(rt;
            read_all(alloc, &mut shelf, "k1", 4).err(),
            Some(ReadEnd::TooLong)
        );
        assert_eq!(rt;
            read_all(alloc, &mut shelf, "k2", 5).err(),
            Some(ReadEnd::Fault)
        );
        Ok(())
    }
}
