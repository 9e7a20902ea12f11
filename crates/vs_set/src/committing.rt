//! The commit of a draft, which was made in a snapshot: it is linked to those that it chose, by their names, and no search is run.
ghost use Rattle.std.specs.Prelude.{◌≡◌, ◌<◌, ◌≤◌, ◌+◌, ◌^◌, ℕ, Bool, Some, None, false, Err, length, map, OnOk, OnErr};
ghost use Rattle.vs_defs.specs.Counts.{commit_reads};
ghost use Rattle.vs_defs.specs.Stale.{stale_by};
ghost use Rattle.vs_defs.specs.Store.{is_member};
ghost use Rattle.vs_set.specs.Drafted.{MayCommit, Commits};
ghost use Rattle.vs_set.specs.Retaken.{retaken, retaken_draft};

use crate::attr::{attr_of, count_after};
use crate::placing::{Place, place_for};
use crate::{Set, SetCommitError};
use std::alloc::Global;
use std::mem;
use std::sync::ledger::Ledger;
use vs_graph::{Nodes, Steps};
use vs_insert::{Chosen, Draft, commit};
use vs_order::Names;
use vs_outside::{List, NoMemory, Text};

/// Gives each of a list the id that its name has now.
fn take_ids(names: &Names, list: &mut [Chosen])
    ensures { list.new ≡ retaken names.now.entries list.old }
{
    for chosen in list.iter_mut() {
        if let Some(id) = names.id_of(chosen.body.name()) {
            chosen.id = id;
        }
    }
}

/// Gives each of the lists of all layers the id that its name has now.
fn take_all_ids(alloc: Global, names: &Names, layers: &mut [List<Chosen>])
    ensures { layers.new ≡ map (retaken names.now.entries) layers.old }
{
    for list in layers.iter_mut() {
        let mut items = mem::replace(list, List::new(alloc)).into_vec();
        take_ids(names, items.as_mut_slice());
        *list = List::from_vec(items);
    }
}

/// The draft with the ids that the names of its chosen members have now.
fn retake(alloc: Global, names: &Names, draft: Draft) -> Draft
    ensures { result ≡ retaken_draft names.now.entries draft }
{
    let Draft {
        cut,
        level,
        chosen,
        body,
    } = draft;
    let mut layers = chosen.into_vec();
    take_all_ids(alloc, names, layers.as_mut_slice());
    Draft {
        cut,
        level,
        chosen: List::from_vec(layers),
        body,
    }
}

impl<N: Nodes> Set<N> {
    /// Adds the member of a draft that isn't stale.
    fn commit_fresh<L: Ledger>(
        &mut self,
        draft: Draft,
        text: Option<Text>,
        reads: &mut Steps<L>,
    ) -> Result<(), NoMemory>
        requires room { length self.old.contents.members < 2 ^ 20 }
        requires new { is_member draft.body.name self.old.contents.members ≡ false }
        requires may { MayCommit self.old draft }
        ensures committed { OnOk result (Commits draft text self.old self.new) }
        ensures told { reads.new ≤ reads.old + commit_reads draft.level self.old.contents.m }
        ensures err { OnErr result (self.new ≡ self.old) }
    {
        let attr = attr_of(self.alloc, text)?;
        let has = attr.is_some();
        let Place { name, id, order } = place_for(
            self.alloc,
            &mut self.names,
            &self.order,
            draft.body.name(),
        )?;
        // what is told behind the last member is asked for only once there is one
        self.rows.put(self.names.len(), Some(draft.body.bits()));
        let draft = retake(self.alloc, &self.names, draft);
        let _nodes = self.graph.nodes();
        commit(self.alloc, &mut self.graph, draft, id, attr, reads)?;
        self.names.push(name);
        self.order = order;
        self.attributes = count_after(self.attributes, false, has);
        Ok(())
    }

    /// Adds a draft's member. The draft is stale exactly where the set's cut isn't the draft's any more, or the name is a member; else each
    /// that it chose is linked by the id that its name has now. The empty text gives no attribute. After an error the set is as it was.
    pub fn try_commit<L: Ledger>(
        &mut self,
        draft: Draft,
        text: Option<Text>,
        reads: &mut Steps<L>,
    ) -> Result<(), SetCommitError>
        requires room { length self.old.contents.members < 2 ^ 20 }
        requires may { stale_by draft.cut draft.body.name (Some self.old) ≡ None → MayCommit self.old draft }
        ensures committed { OnOk result (Commits draft text self.old self.new) }
        ensures fresh { OnOk result (stale_by draft.cut draft.body.name (Some self.old) ≡ None) }
        ensures stale { (cut_now : ℕ) (taken : Bool) → result ≡ Err (SetCommitError.Stale cut_now taken) → stale_by draft.cut draft.body.name (Some self.old) ≡ Some (cut_now, taken) }
        ensures memory { result ≡ Err SetCommitError.NoMemory → stale_by draft.cut draft.body.name (Some self.old) ≡ None }
        ensures told { reads.new ≤ reads.old + commit_reads draft.level self.old.contents.m }
        ensures err { OnErr result (self.new ≡ self.old) }
    {
        let taken = self.has(draft.body.name());
        let cut_now = self.cut;
        if draft.cut != cut_now || taken {
            return Err(SetCommitError::Stale { cut_now, taken });
        }
        match self.commit_fresh(draft, text, reads) {
            Ok(()) => Ok(()),
            Err(_) => Err(SetCommitError::NoMemory),
        }
    }
}
