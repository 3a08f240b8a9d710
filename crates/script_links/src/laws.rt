//! A law of links over a script, the contract of a function that does nothing.

ghost use Rattle.std.specs.Prelude.{ℕ, List};
ghost use Rattle.streams.specs.declared.marks.Mark.{Mark};
ghost use Rattle.streams.specs.declared.rest_place.RestPlace.{RestPlace};
ghost use Rattle.host_model.specs.Journal.{JournalEntry};
ghost use Rattle.host_model.specs.DeskRules.{DeskRules};
ghost use Rattle.script_model.specs.ScriptLines.{ScriptPlan};
ghost use Rattle.script_model.specs.Fed.{IsFedBy};
ghost use Rattle.script_links.specs.Followed.{FollowsScript};
ghost use Rattle.script_links.specs.Serves.{ServesLinks};

/// Links that have followed their script to its end, and a loop that serves them, make a run that the script feeds.
#[tactic(auto, using(crate::proofs::FedByLinks::fed))]
pub fn served_links_are_fed<C, A>()
    ensures { (d : DeskRules C A) (budget : ℕ) (script : ScriptPlan) (tape : List Mark) (places : List RestPlace) (lengths : List ℕ) (journal : List (JournalEntry C A)) →
        FollowsScript script tape places lengths → ServesLinks d budget tape places lengths journal → IsFedBy d budget script tape journal }
{}
