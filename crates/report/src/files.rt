// Reading a file that may be missing. No contract says which bytes a file has.
ghost use Rattle.std.specs.Prelude.{◌≢◌};
ghost use Rattle.std.specs.IoError.{error_kind};
ghost use Rattle.std.specs.Result.{IfErr};
ghost use Rattle.report.specs.Files.{Allowed};

use std::fs::Files;
use std::io::ErrorKind;
use std::{fs, io};

// The bytes of a file, or none where it is missing.
pub fn read_file(rt: &(impl Files + AllocGlobal), path: &str) -> io::Result<Option<Vec<u8>>>
    ensures { IfErr result (λ e. error_kind e ≢ ErrorKind.NotFound) }
{
    allow_missing(fs::read(rt, path))
}

// None where a file is missing. Any other error stays.
fn allow_missing<T>(read: io::Result<T>) -> io::Result<Option<T>>
    ensures { Allowed read result }
{
    match read {
        Ok(bytes) => Ok(Some(bytes)),
        Err(error) if error.kind() == ErrorKind::NotFound => Ok(None),
        Err(error) => Err(error),
    }
}

// The bytes of a file. A missing file counts as empty.
pub fn read_or_empty(rt: &(impl Files + AllocGlobal), path: &str) -> io::Result<Vec<u8>>
    ensures { IfErr result (λ e. error_kind e ≢ ErrorKind.NotFound) }
{
    Ok(read_file(rt, path)?.unwrap_or(Vec::new(rt.alloc())))
}
