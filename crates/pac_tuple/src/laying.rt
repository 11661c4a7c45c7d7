// Lays lists of after-images.
ghost use Rattle.std.specs.Prelude.{◌≡◌, ◌≤◌, ◌<◌, IfOk};
ghost use Rattle.pac_tuple.specs.Laying.{tables_laid, AreLaidWithin};
ghost use Rattle.pac_tuple.specs.Shares.{AreLastOf};

use crate::images::Images;
use crate::last::LastImages;
use crate::share::CellShare;
use pac_base::NoMemory;
use pac_tables::Rows;
use std::alloc::Global;
use std::thread;
use std::thread::Threads;

/// The rows after lists of after-images are laid, one after another. Each worker finds the last image at each cell of its
/// share of the cells, in a thread of its own, or in the caller's where none can be started; then the caller makes the rows
/// have these. The time is linear in the images, each of which every worker looks at. What is copied is what stays.
///
/// # Errors
///
/// [`NoMemory`] where an allocation is refused.
pub fn lay<R: Rows, H: Threads + Sync>(
    rt: &H,
    alloc: Global,
    workers: u32,
    rows: R,
    images: &Images,
) -> Result<R, NoMemory>
    requires some { 1 ≤ workers }
    requires few { workers ≤ 64 }
    requires within { AreLaidWithin (R.tables rows) images.now }
    // They are the rows of all lists, whatever the number of workers.
    ensures rows { IfOk result (λ laid. R.held laid ≡ tables_laid (R.held rows) images.now) }
    ensures tables { IfOk result (λ laid. R.tables laid ≡ R.tables rows) }
{
    let count = u64::from(workers);
    let mut found = thread::map_indices(
        rt,
        alloc,
        workers as usize,
        &|number: usize| -> Result<LastImages, NoMemory>
            requires { 0 < count }
            ensures { IfOk result (AreLastOf (record { count = count; number = number }) images.entry.now) }
        {
            let share = CellShare {
                count,
                number: number as u64,
            };
            LastImages::of_share(alloc, &share, images)
        },
    )?;
    let mut rows = rows;
    while let Some(last) = found.pop() {
        last?.make(&mut rows)?;
    }
    Ok(rows)
}
