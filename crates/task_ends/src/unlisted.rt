//! How many visits are where no place begins.
ghost use Rattle.std.specs.Prelude.{◌≡◌, ℕ, ◌+◌, ◌^◌, ◌<◌, length, slice_index};
ghost use Rattle.brk_table.specs.Meaning.{in_image};
ghost use Rattle.task_ends.specs.Unlisted.{AddsOne};

use brk_table::Tables;
use cov_base::Addr;
use module_area::{Control, Image, Images};
use s370_decode::Code;
use s370_state::Cpu;
use task_run::{Observer, Sight};

/// Whether the module has the address.
pub(crate) fn is_in(image: &Image, at: Addr) -> bool
    ensures { result ≡ in_image image.now at }
{
    let base = image.base.get();
    base <= at.get() && ((at.get() - base) as usize) < image.bytes.len()
}

/// Counts a visit at the address, where no place begins.
fn count_at(images: &Images, counts: &mut [u64], at: Addr)
    requires size { length counts.old ≡ length images.now }
    requires room { (m : ℕ) → m < length counts.old → slice_index counts.old m + 1 < 2 ^ 64 }
    ensures size { length counts.new ≡ length counts.old }
    ensures each { AddsOne images.now at counts.old counts.new }
{
    for m in 0..images.0.len() {
        if is_in(&images.0[m], at) {
            counts[m] += 1;
        }
    }
}

/// Counts the visits of a task that were begun where no place begins: its pass has a count for each module, to which the
/// tasks that ran before it have added theirs.
#[derive(Drop)]
pub(crate) struct Unlisted<'a> {
    pub(crate) images: &'a Images,
    // the tasks that ran before
    pub(crate) tasks: u32,
}

impl<'a> Observer for Unlisted<'a> {
    type Pass = Vec<u64>;

    ghost use Rattle.std.specs.Prelude.{◌≡◌, length, refl};
    ghost use Rattle.task_ends.specs.Counting.{adds_none, adds_more, room_later, room_next};
    ghost use Rattle.task_ends.specs.Held.{HasRoom};
    ghost use Rattle.task_ends.specs.Unlisted.{Adds};

    ghost IsReady = { λ unlisted tables counts done shown. HasRoom (length unlisted.images.now) unlisted.tasks counts.items done shown };

    ghost IsTied = { λ unlisted counts control. Unit {0} };

    ghost Makes = { λ unlisted tables counts vs new. Adds tables.places unlisted.images.now vs counts.items new.items };

    ghost Answers = { λ unlisted counts control call new after. (new ≡ counts) × (after ≡ control) };

    fn begun(&self, counts: &mut Vec<u64>, tables: &Tables, cpu: &Cpu, code: &Code, sight: Sight) {
        if sight.place.is_none() {
            count_at(self.images, counts, sight.at);
        }
    }

    fn refused(&self, counts: &mut Vec<u64>, tables: &Tables, sight: Sight) {}

    fn called(
        &self,
        counts: &mut Vec<u64>,
        tables: &Tables,
        control: &mut Control,
        done: u32,
        half: u16,
    ) {}

    ghost later = { λ unlisted tables counts done shown. room_later (length unlisted.images.now) unlisted.tasks counts.items done shown };

    ghost next = { λ unlisted tables counts done. room_next (length unlisted.images.now) unlisted.tasks counts.items done };

    ghost none = { λ unlisted tables counts. adds_none tables.places unlisted.images.now counts.items };

    ghost no_call = { λ unlisted counts control. (refl, refl) };

    ghost both = { λ unlisted tables old mid new vs ws. adds_more tables.places unlisted.images.now vs ws old.items mid.items new.items };
}
