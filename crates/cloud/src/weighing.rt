// The calls on weights: weigh and resample.
ghost use Rattle.std.specs.Prelude.{◌≡◌, OnErr};
ghost use Rattle.sources.specs.Supplies.{Supply};
ghost use Rattle.models.specs.Kinds.{Kind};
ghost use Rattle.models.specs.Meanings.{Meaning};
ghost use Rattle.filter.specs.Calls.{weigh as to_weigh, resample as to_resample};
ghost use Rattle.cloud.specs.Promises.{Steps, GoesOn};
ghost use Rattle.cloud.specs.Views.{view, told, told_weighing};

use crate::cloud::Cloud;
use crate::draw::next_number;
use crate::reply::{Change, Weighing};
use filter::phase::Phase;
use models::model::Model;
use models::state::State;
use refusals::Refusal;
use resampling::parents::write_parents;
use resampling::total::total_weight;
use sources::Source;

impl<S: State> Cloud<'_, S> {
    // Gives each particle the score of its state at the reading for a weight.
    pub fn weigh<M: Model<State = S>>(
        &mut self,
        model: &M,
        reading: u8,
    ) -> Result<Weighing, Refusal>
        ensures same { OnErr result (self.new ≡ self.old) }
        ensures rest { self.new.rest ≡ self.old.rest }
        ensures steps { (q : Supply) → Steps S.State.kind (M.meaning model.now) (to_weigh reading) (told_weighing result) (view self.old) q (view self.new) q }
        ensures runs { (q : Supply) → GoesOn S.State.kind (M.meaning model.now) (to_weigh reading) (told_weighing result) (view self.old) q (view self.new) q }
    {
        if self.phase != Phase::Level {
            return Err(Refusal::WrongPhase);
        }
        if !model.knows_reading(reading) {
            return Err(Refusal::Unknown);
        }
        let total = self
            .forest
            .score_tips(model, reading, &self.tips, &mut self.weights);
        self.phase = Phase::Weighed;
        Ok(Weighing {
            total,
            change: Change {
                issued: 0,
                freed: 0,
            },
        })
    }

    // Replaces the particles by as many children, by systematic resampling with one number drawn.
    pub fn resample<R: Source>(&mut self, source: &mut R) -> Result<Change, Refusal>
        ensures same { OnErr result ((self.new ≡ self.old) × (source.new ≡ source.old)) }
        ensures count { R.recorded source.new ≡ R.recorded source.old }
        ensures rest { self.new.rest ≡ self.old.rest }
        ensures steps { (k : Kind S) (m : Meaning S) → Steps k m to_resample (told result) (view self.old) (R.supply source.old) (view self.new) (R.supply source.new) }
        ensures runs { (k : Kind S) (m : Meaning S) → GoesOn k m to_resample (told result) (view self.old) (R.supply source.old) (view self.new) (R.supply source.new) }
    {
        if self.phase != Phase::Weighed {
            return Err(Refusal::WrongPhase);
        }
        if !source.can_draw(1) {
            return Err(Refusal::SourceDry);
        }
        total_weight(&self.weights)?;
        let number = next_number(source);
        // `write_parents` writes into a row that it is lent, and a call takes no heap
        let mut parents = [0; 256];
        let n = write_parents(&self.weights, number, &mut parents).unwrap();
        let freed = self.forest.resettle(&mut self.tips, &parents[..n]);
        self.phase = Phase::Level;
        Ok(Change { issued: 0, freed })
    }
}
