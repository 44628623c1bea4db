//! The generated file, without its text.
ghost use Rattle.std.specs.Prelude.{◌≡◌, IfOk};
ghost use Rattle.sto_gen.specs.Draws.{transfers_after};

use crate::body::GeneratedBody;
use std::alloc::Global;
use sto_gen::{Transfer, transfers};
use sto_lang::File;
use sto_model::Shapes;
use sto_part::{List, NoMemory};
use sto_run::Workload;

/// The file that a number generates, by its transfers: three bytes for a transaction, which is made when it is run.
#[derive(Drop)]
pub struct GeneratedFile {
    number: u64,
    transfers: List<Transfer>,
    ghost drawn: { transfers.items ≡ transfers_after 3200 number },
}

impl GeneratedFile {
    ghost use Rattle.sto_bench.specs.Files.{number_of};

    /// The file of a number.
    pub fn new(alloc: Global, number: u64) -> Result<GeneratedFile, NoMemory>
        ensures { IfOk result (λ f. number_of f ≡ number) }
    {
        let transfers = transfers(alloc, number)?;
        Ok(GeneratedFile { number, transfers })
    }
}

impl Workload for GeneratedFile {
    ghost use Rattle.sto_bench.specs.Files.{generated};

    type Transaction = GeneratedBody;

    ghost file = { generated };

    fn threads(&self) -> u32 {
        16
    }

    fn count(&self, _thread: u32) -> u32 {
        200
    }

    fn shapes(&self, alloc: Global) -> Result<Shapes, NoMemory> {
        let file = File {
            version: 1,
            decls: sto_gen::objects(alloc)?,
            threads: List::new(alloc),
            schedule: None,
        };
        sto_lang::shapes(alloc, &file)
    }

    fn transaction(
        &self,
        _alloc: Global,
        thread: u32,
        position: u32,
    ) -> Result<GeneratedBody, NoMemory> {
        let transfer = self.transfers.get(200 * thread + (position - 1));
        Ok(GeneratedBody::new(thread, position, *transfer))
    }
}
