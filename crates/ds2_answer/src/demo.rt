//! The job of `demo`, and the files in which it is run.
ghost use Rattle.std.specs.Prelude.{◌≡◌, ◌≤◌, IfOk};
ghost use Rattle.ds2_answer.specs.DemoPlans.{demo_files, demo_job, demo_source};
ghost use Rattle.ds2_answer.specs.declared.sales_table.TheConstants.{MOST_SALES};

use crate::sales;
use ds2_base::{Bytes, List, OutOfMemory, Text};
use ds2_csv::write_table;
use ds2_outside::MemFiles;
use std::alloc::Global;

/// The name of the job's source.
pub fn demo_job(alloc: Global) -> Result<Text, OutOfMemory>
    ensures { IfOk result (λ name. name ≡ demo_job) }
{
    Text::of(alloc, "job.ds2")
}

// The job's source, that of `examples/totals`.
fn demo_source(alloc: Global) -> Result<Bytes, OutOfMemory>
    ensures { IfOk result (λ bytes. bytes ≡ demo_source) }
{
    List::from_slice(
        alloc,
        b"thread sums;\ndcl decimal(15,2) total; retain total; keep region total;\nmethod run();\nset sales; by region;\nif first.region then total = 0;\ntotal = total + amt;\nif last.region then output;\nend;\nendthread;\ndata totals;\ndcl thread sums s;\nmethod run(); set from s threads=4; end;\nenddata;\n",
    )
}

/// The files in which `demo` runs its job: the source, and `n` sales, 1 to [`MOST_SALES`](crate::MOST_SALES).
#[tactic(auto, unfolding(crate::specs::DemoPlans::demo_files))]
pub fn demo_files(alloc: Global, n: u32) -> Result<MemFiles, OutOfMemory>
    requires some { 1 ≤ n }
    requires most { n ≤ MOST_SALES }
    ensures { IfOk result (λ files. files ≡ demo_files n) }
{
    let mut files = MemFiles::new(alloc);
    files.put(alloc, &demo_job(alloc)?, demo_source(alloc)?)?;
    let table = sales(alloc, n)?;
    let bytes = write_table(alloc, &table)?;
    files.put(alloc, &Text::of(alloc, "sales.csv")?, bytes)?;
    Ok(files)
}
