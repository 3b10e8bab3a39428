//! What the kinds of objects of a bundle have in common: one is taken away under DELETE, and else written.

ghost use Rattle.std.specs.Prelude.{◌≡◌, ℕ, List, Option, true, IfOk};
ghost use Rattle.dh_changes.specs.Facts.{Facts};
ghost use Rattle.dh_changes.specs.World.{facts};
ghost use Rattle.dh_changes.specs.declared.change.Write.{Write as Written};
ghost use Rattle.dh_changes.specs.declared.outcome.ImportStrategy.{ImportStrategy as Chosen};
ghost use Rattle.dh_changes.specs.declared.outcome.Who.{Who as Asker};
ghost use Rattle.dh_metadata.specs.Objects.{is_shared};
ghost use Rattle.dh_metadata.specs.declared.held.Records.{Records};
ghost use Rattle.dh_metadata.specs.declared.kind.Kind.{Kind as Owners};
ghost use Rattle.value_import.specs.Outcomes.{IsKnown};
ghost use Rattle.tracker_import.specs.Batches.{IsBatch};
ghost use Rattle.tracker_import.specs.Outcomes.{Sofar, sofar_of};
ghost use Rattle.tracker_import.specs.declared.judged.Judged.{Judged as Outcome};
ghost use Rattle.tracker_import.specs.declared.places.Live.{Live as There};

use crate::asking::Asking;
use crate::batch::Batch;
use crate::judged::Judged;
use crate::places::Live;
use dh_base::items::Items;
use dh_base::memory::Memory;
use dh_base::uid::Uid;
use dh_changes::change::Write;
use dh_changes::world::World;
use dh_metadata::kind::Kind;
use std::alloc::Global;

/// An object of a bundle.
pub trait Object {
    /// Its identifier.
    ghost own: { Self → Option (List ℕ) };

    /// The kind of what owns it: of tracked entity types or of programs.
    ghost owned_by: { Owners };

    /// Where one of this identifier stands, if it is there.
    ghost there: { Facts → List Written → Option (List ℕ) → Option There };

    /// The writes that take one of this identifier away.
    ghost removal: { Facts → List Written → List ℕ → List Written };

    /// What it comes to that is to be written.
    ghost written: { Facts → Records → Asker → Chosen → Sofar → Self → Outcome };

    /// Its identifier.
    fn id(&self) -> Option<Uid>
        ensures { result ≡ own self.now };

    /// The kind of what owns it.
    fn owners() -> Kind
        ensures value { result ≡ owned_by }
        ensures shared { is_shared result ≡ true };

    /// Where one of this identifier stands, if it is there.
    fn live(world: &World, batch: &Batch, id: &Option<Uid>) -> Option<Live>
        requires { IsBatch batch.now }
        ensures { result ≡ there (facts world.now) batch.now.verdict.writes id.now };

    /// The writes that take one of this identifier away.
    fn gone(alloc: Global, world: &World, batch: &Batch, id: Uid) -> Result<Items<Write>, Memory>
        requires { IsBatch batch.now }
        ensures { IfOk result (λ writes. writes ≡ removal (facts world.now) batch.now.verdict.writes id) };

    /// What it comes to that is to be written.
    fn write(
        &self,
        alloc: Global,
        asking: &Asking<'_>,
        world: &World,
        batch: &Batch,
    ) -> Result<Judged, Memory>
        requires who { IsKnown asking.now.meta.now asking.now.who }
        requires same { world.now ≡ asking.now.world.now }
        requires held { IsBatch batch.now }
        ensures { IfOk result (λ judged. judged ≡ written (facts asking.now.world.now) asking.now.meta.now asking.now.who
            asking.now.strategy (sofar_of batch.now.verdict batch.now.judged) self.now) };
}
