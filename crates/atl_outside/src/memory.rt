// Files and a sink in memory, whose calls fail where they are told to.
ghost use Rattle.std.specs.Prelude.{◌≡◌, ◌≤◌, ◌++◌, ◌↔◌, [], false, Some, IsTrue, OnOk, OnErr, IsErrOf};
ghost use Rattle.std.specs.Option.{option_copied};
ghost use Rattle.atl_outside.specs.Held.{content_of, with_content, held_of, SameElsewhere};
ghost use Rattle.atl_outside.specs.Memory.{read_fails, read_answer, GivesOrMemory};
ghost use Rattle.atl_outside.specs.Plan.{new_plan, fails_next, plan_after};
ghost use Rattle.atl_outside.specs.Taken.{TakesFront};

use crate::files::{FileFault, Files};
use crate::path_table::{PathTable, read_within};
use crate::plan::CallPlan;
use crate::sink::{Sink, SinkFault};
use atl_base::text::Text;
use std::alloc::Global;
use std::marker::Model;

/// Files in memory. Reads and writes are counted alike, from 1, and those whose numbers are listed fail; so does a read of
/// a path that is not held. A write that fails writes nothing.
#[derive(Drop)]
pub struct MemFiles {
    table: PathTable,
    plan: CallPlan,
}

impl Model for MemFiles {
    ghost use Rattle.atl_outside.specs.Memory.{MemoryFiles, files_code};

    ghost Value = { MemoryFiles };

    ghost coded = { files_code };

    ghost view = { λ files. record { held = files.table; plan = files.plan } };
}

impl MemFiles {
    /// Files that hold these pairs, and the numbers of the calls that fail. Of a path that stands twice the first pair counts.
    pub fn new(held: Vec<(Text, Vec<u8>)>, fails: Vec<u64>) -> MemFiles
        ensures { result ≡ record { held = held_of held.items; plan = new_plan fails.items } }
    {
        MemFiles {
            table: PathTable::new(held),
            plan: CallPlan::new(fails),
        }
    }

    /// The bytes at the path, if it is held.
    pub fn content(&self, path: &Text) -> Option<&[u8]>
        ensures { option_copied result ≡ content_of self.now.held path.now }
    {
        self.table.content(path)
    }
}

impl Files for MemFiles {
    ghost held = { λ files. Some files.held };

    ghost faults = { λ files. files.plan.faults };

    fn read(&mut self, alloc: Global, path: &Text, limit: u64) -> Result<Vec<u8>, FileFault>
        ensures answer { GivesOrMemory result (read_answer self.old path.now limit) }
        ensures after { self.new ≡ record { held = self.old.held; plan = plan_after (read_fails self.old path.now) self.old.plan } }
        ensures counted { self.old.plan.faults ≤ self.new.plan.faults }
    {
        let planned = self.plan.fails_next();
        let content = self.table.content(path);
        self.plan.count(planned || content.is_none());
        match content {
            Some(bytes) if !planned => read_within(alloc, bytes, limit),
            _ => Err(FileFault::Failed),
        }
    }

    fn write(&mut self, alloc: Global, path: &Text, bytes: &[u8]) -> Result<(), FileFault>
        ensures answer { IsErrOf result FileFault.Failed ↔ IsTrue (fails_next self.old.plan) }
        ensures written { OnOk result (self.new ≡ record { held = with_content self.old.held path.now bytes.now; plan = plan_after false self.old.plan }) }
        ensures unwritten { OnErr result (self.new ≡ record { held = self.old.held; plan = plan_after (fails_next self.old.plan) self.old.plan }) }
        ensures counted { self.old.plan.faults ≤ self.new.plan.faults }
        ensures not_too_big { IsErrOf result FileFault.TooBig → ⊥ }
        ensures elsewhere { SameElsewhere path.now (Some self.old.held) (Some self.new.held) }
    {
        let planned = self.plan.fails_next();
        self.plan.count(planned);
        if planned {
            return Err(FileFault::Failed);
        }
        Ok(self.table.set(alloc, path, bytes)?)
    }
}

/// A sink in memory. Its puts are counted from 1, and those whose numbers are listed fail and take nothing.
#[derive(Drop)]
pub struct MemSink {
    bytes: Vec<u8>,
    plan: CallPlan,
}

impl Model for MemSink {
    ghost use Rattle.atl_outside.specs.Memory.{MemorySink};

    ghost Value = { MemorySink };

    ghost view = { λ sink. record { taken = sink.bytes.items; plan = sink.plan } };
}

impl MemSink {
    /// A sink that has taken nothing, and the numbers of the puts that fail.
    pub fn new(alloc: Global, fails: Vec<u64>) -> MemSink
        ensures { result ≡ record { taken = []; plan = new_plan fails.items } }
    {
        MemSink {
            bytes: Vec::new(alloc),
            plan: CallPlan::new(fails),
        }
    }

    /// The bytes taken so far.
    pub fn bytes(&self) -> &[u8]
        ensures { result.now ≡ self.now.taken }
    {
        &self.bytes
    }
}

impl Sink for MemSink {
    ghost taken = { λ sink. Some sink.taken };

    ghost faults = { λ sink. sink.plan.faults };

    fn put(&mut self, _alloc: Global, bytes: &[u8]) -> Result<(), SinkFault>
        ensures answer { IsErrOf result SinkFault.Failed ↔ IsTrue (fails_next self.old.plan) }
        ensures taken { OnOk result (self.new ≡ record { taken = self.old.taken ++ bytes.now; plan = plan_after false self.old.plan }) }
        ensures untaken { OnErr result (self.new ≡ record { taken = self.old.taken; plan = plan_after (fails_next self.old.plan) self.old.plan }) }
        ensures counted { self.old.plan.faults ≤ self.new.plan.faults }
        ensures front { IsErrOf result SinkFault.Failed → TakesFront bytes.now (Some self.old.taken) (Some self.new.taken) }
    {
        let planned = self.plan.fails_next();
        self.plan.count(planned);
        if planned {
            return Err(SinkFault::Failed);
        }
        Ok(self.bytes.extend_from_slice(bytes)?)
    }
}
