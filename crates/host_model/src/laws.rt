//! Laws of the definitions, each the contract of a function that does nothing. A size is a signed number of four bytes, hence the bound on the
//! longest payload.

ghost use Rattle.std.specs.Prelude.{◌≡◌, ℕ, ◌<◌, ◌≤◌, ◌^◌, List, ◌++◌, length, slice_get};
ghost use Rattle.std.specs.Int.{w32, to_be_bytes};
ghost use Rattle.host_model.specs.declared.cause.EndCause.{EndCause};
ghost use Rattle.host_model.specs.Frames.{Frames, IsPartial};
ghost use Rattle.host_model.specs.Journal.{ServiceRules};
ghost use Rattle.host_model.specs.DeskRules.{DeskRules};
ghost use Rattle.host_model.specs.Headline.{Headline};
ghost use Rattle.host_model.specs.World.{World, Act, ReachedBy, HasEnded, Moment};

/// Every stream splits into frames in exactly one way.
pub fn one_split()
    ensures split { (max : ℕ) (bytes : List ℕ) → max < 2 ^ 31 →
        (payloads : List (List ℕ)) × (rest : List ℕ) × Frames max bytes payloads rest }
    ensures only { (max : ℕ) (bytes rest other_rest : List ℕ) (payloads others : List (List ℕ)) → max < 2 ^ 31 →
        Frames max bytes payloads rest → Frames max bytes others other_rest → (payloads ≡ others) × (rest ≡ other_rest) }
{}

/// What less than a frame looks like: fewer bytes than a size has, or a size that a frame has and fewer bytes than it says.
pub fn less_than_a_frame()
    ensures size { (max : ℕ) (bytes : List ℕ) → length bytes < 4 → IsPartial max bytes }
    ensures payload { (max size : ℕ) (bytes : List ℕ) → max < 2 ^ 31 → 1 ≤ size → size ≤ max → length bytes < size →
        IsPartial max (to_be_bytes w32 size ++ bytes) }
{}

/// The journal of every run is a legal history, its calls stand in order, and each connection that has ended has had a whole conversation.
pub fn every_run_meets<C, A, M>()
    ensures { (d : DeskRules C A) (r : ServiceRules C A M) (memories : List M) (acts : List (Act C A)) (world : World C A) (causes : List EndCause) →
        d.max < 2 ^ 31 → ReachedBy d r memories acts world → ((c : ℕ) → HasEnded (world.endpoints c).stage (slice_get causes c)) →
        Headline d r memories world.tape world.journal causes }
{}

/// At each moment of a run its journal, its tape and its connections stand as their stages say.
pub fn every_moment_stands<C, A, M>()
    ensures { (d : DeskRules C A) (r : ServiceRules C A M) (memories : List M) (acts : List (Act C A)) (world : World C A) →
        d.max < 2 ^ 31 → ReachedBy d r memories acts world → Moment d r memories world }
{}
