// The calls that issue nodes: start and advance.
ghost use Rattle.std.specs.Prelude.{◌≡◌, OnErr};
ghost use Rattle.filter.specs.Calls.{start as to_start, advance as to_advance};
ghost use Rattle.cloud.specs.Promises.{Steps, GoesOn};
ghost use Rattle.cloud.specs.Views.{view, told};

use crate::cloud::Cloud;
use crate::reply::Change;
use filter::phase::Phase;
use models::model::Model;
use models::state::State;
use refusals::Refusal;
use resampling::total::MOST_PARTICLES;
use sources::Source;

// What every call leaves alone and what it promises (`same`, `count`, `rest`, `steps`, `runs`) is said of before and after, which no invariant of the cloud could carry.
// Model and source stay two parameters, since a call may take either alone.
// Each call makes its own tests, in the order of its refusals: a helper for one of them would need a definition of its reply, and the tests of the phase are of two kinds.
impl<S: State> Cloud<'_, S> {
    // Begins with n particles, each at the birth of a number of its own, drawn in particle order.
    pub fn start<M: Model<State = S>, R: Source>(
        &mut self,
        model: &M,
        source: &mut R,
        n: u16,
    ) -> Result<Change, Refusal>
        ensures same { OnErr result ((self.new ≡ self.old) × (source.new ≡ source.old)) }
        ensures count { R.recorded source.new ≡ R.recorded source.old }
        ensures rest { self.new.rest ≡ self.old.rest }
        ensures steps { Steps S.State.kind (M.meaning model.now) (to_start n) (told result) (view self.old) (R.supply source.old) (view self.new) (R.supply source.new) }
        ensures runs { GoesOn S.State.kind (M.meaning model.now) (to_start n) (told result) (view self.old) (R.supply source.old) (view self.new) (R.supply source.new) }
    {
        if self.phase != Phase::Empty {
            return Err(Refusal::WrongPhase);
        }
        let many = usize::from(n);
        if !(1..=MOST_PARTICLES).contains(&many) {
            return Err(Refusal::OutOfRange);
        }
        if self.forest.free < many {
            return Err(Refusal::NoNodesLeft);
        }
        if !source.can_draw(u32::from(n)) {
            return Err(Refusal::SourceDry);
        }
        self.tips = self.forest.issue_births(model, source, many);
        self.round = 0;
        self.phase = Phase::Level;
        Ok(Change {
            issued: u32::from(n),
            freed: 0,
        })
    }

    // Moves each particle under the command, by a number of its own, drawn in particle order.
    pub fn advance<M: Model<State = S>, R: Source>(
        &mut self,
        model: &M,
        source: &mut R,
        command: u8,
    ) -> Result<Change, Refusal>
        ensures same { OnErr result ((self.new ≡ self.old) × (source.new ≡ source.old)) }
        ensures count { R.recorded source.new ≡ R.recorded source.old }
        ensures rest { self.new.rest ≡ self.old.rest }
        ensures steps { Steps S.State.kind (M.meaning model.now) (to_advance command) (told result) (view self.old) (R.supply source.old) (view self.new) (R.supply source.new) }
        ensures runs { GoesOn S.State.kind (M.meaning model.now) (to_advance command) (told result) (view self.old) (R.supply source.old) (view self.new) (R.supply source.new) }
    {
        if self.phase != Phase::Level {
            return Err(Refusal::WrongPhase);
        }
        if !model.knows_command(command) {
            return Err(Refusal::Unknown);
        }
        let n = self.tips.len();
        if self.forest.free < n {
            return Err(Refusal::NoNodesLeft);
        }
        if !source.can_draw(n as u32) {
            return Err(Refusal::SourceDry);
        }
        self.forest
            .issue_moves(model, source, command, &mut self.tips);
        self.round += 1;
        Ok(Change {
            issued: n as u32,
            freed: 0,
        })
    }
}
