//! Lines of counts, up to the most that a word holds.
ghost use Rattle.cov_base.specs.Meaning.{same_fact};
ghost use Rattle.cov_base.specs.declared.facts.Fact.TheVariants.{Stayed};
ghost use Rattle.std.specs.Prelude.{if◌then◌else◌};

use cov_base::{Fact, Kind, PlaceNo, SessNo};
use report_text::count_line;
use session_book::FactCounts;
use std::test::Fail;

/// The same counts in each session and at each place: of Ran and Went, and of Stayed.
#[derive(Drop)]
struct SameCounts {
    first: u64,
    stayed: u64,
}

impl FactCounts for SameCounts {
    ghost sessions = { λ _. 1 };

    ghost places = { λ _. 1 };

    ghost count_of = { λ c _ _ f. if same_fact f Stayed then c.stayed else c.first };

    fn count(&self, _s: SessNo, _p: PlaceNo, fact: Fact) -> u64 {
        match fact {
            Fact::Ran | Fact::Went => self.first,
            Fact::Stayed => self.stayed,
        }
    }
}

/// Location and kind of a place, how often it ran or branched and how often it fell through, and its line.
static COUNTS: [(u32, Kind, u64, u64, &str); 8] = [
    (0, Kind::Conditional, 2, 1, "COUNT 000000 2 1\n"),
    (4, Kind::Straight, 1, 7, "COUNT 000004 1\n"),
    (0, Kind::Straight, 2, 7, "COUNT 000000 2\n"),
    (2, Kind::Conditional, 1, 1, "COUNT 000002 1 1\n"),
    (6, Kind::Straight, 1, 7, "COUNT 000006 1\n"),
    (8, Kind::Straight, 2, 7, "COUNT 000008 2\n"),
    (0xABCDE, Kind::Straight, 0, 7, "COUNT 0ABCDE 0\n"),
    (
        0xFFFFFE,
        Kind::Conditional,
        18_446_744_073_709_551_615,
        18_446_744_073_709_551_614,
        "COUNT FFFFFE 18446744073709551615 18446744073709551614\n",
    ),
];

#[test]
fn lines_of_counts(rt: HostRuntime) -> Result<(), Fail> {
    for (location, kind, first, stayed, text) in COUNTS {
        let counts = SameCounts { first, stayed };
        let line = count_line(location % 0x100_0000, kind, &counts, SessNo(1), PlaceNo(0));
        assert_eq!(rt; line.as_slice(), text.as_bytes());
    }
    Ok(())
}
