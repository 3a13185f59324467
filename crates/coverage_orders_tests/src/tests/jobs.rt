//! Jobs, each of module M with its listing and of its own lines.
use std::alloc::Global;
use std::test::Fail;

/// Load address, add and branch; the lines up to the phase, as of those below.
const LOAD: &str = "\
COVERJOB 1\n\
MODULE M 100000 8\n\
TEXT 411000051A1107FE\n\
LISTING 4\n\
\x20 Loc  Object Code    Addr1 Addr2  Stmt   Source Statement\n\
000000 4110 0005                      1          LA\n\
000004 1A11                           2          AR\n\
000006 07FE                           3          BR\n\
PHASE P\n";

/// A count down from register 1, and a return.
const COUNT: &str = "\
COVERJOB 1\n\
MODULE M 100000 6\n\
TEXT 4610F00007FE\n\
LISTING 3\n\
\x20 Loc  Object Code    Addr1 Addr2  Stmt   Source Statement\n\
000000 4610 F000                      1          BCT\n\
000004 07FE                           2          BR\n\
PHASE P\n";

/// A branch that depends on register 1.
const BRANCH: &str = "\
COVERJOB 1\n\
MODULE M 100000 10\n\
TEXT 12114780F008182207FE\n\
LISTING 5\n\
\x20 Loc  Object Code    Addr1 Addr2  Stmt   Source Statement\n\
000000 1211                           1          LTR\n\
000002 4780 F008                      2          BE\n\
000006 1822                           3          LR\n\
000008 07FE                           4          BR\n\
PHASE P\n";

/// EX of EX.
const EXECUTE: &str = "\
COVERJOB 1\n\
MODULE M 100000 10\n\
TEXT 4400F0044400F00007FE\n\
LISTING 4\n\
\x20 Loc  Object Code    Addr1 Addr2  Stmt   Source Statement\n\
000000 4400 F004                      1          EX\n\
000004 4400 F000                      2          EX\n\
000008 07FE                           3          BR\n\
PHASE P\n";

/// The lines of a job up to its phase, by the name of the module's program; none for any other name.
fn front(name: &str) -> &'static str {
    if name == "LOAD" {
        LOAD
    } else if name == "COUNT" {
        COUNT
    } else if name == "BRANCH" {
        BRANCH
    } else if name == "EXECUTE" {
        EXECUTE
    } else {
        ""
    }
}

/// The texts, one behind the other.
pub fn joined(alloc: Global, texts: &[&str]) -> Result<Vec<u8>, Fail> {
    let mut all = Vec::new(alloc);
    for text in texts {
        all.extend_from_slice(text.as_bytes())?;
    }
    Ok(all)
}

/// The job of the program of this name and of these lines.
pub fn job_of(alloc: Global, name: &str, own: &str) -> Result<Vec<u8>, Fail> {
    let mut all = Vec::new(alloc);
    all.extend_from_slice(front(name).as_bytes())?;
    all.extend_from_slice(own.as_bytes())?;
    Ok(all)
}
