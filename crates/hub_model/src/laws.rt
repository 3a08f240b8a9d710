//! Laws of a hub, each the contract of a function that does nothing. A size is a signed number of four bytes, hence the bound
//! on the longest payload. `default` is any answer: it is that of services which have no answer left, which no law needs.

ghost use Rattle.std.specs.Prelude.{◌≡◌, ◌+◌, ◌<◌, ◌≤◌, ◌^◌, ◌⊎◌, ℕ, List, [], true, false, length};
ghost use Rattle.streams.specs.Cause.{Rose};
ghost use Rattle.host_model.specs.declared.cause.EndCause.{EndCause};
ghost use Rattle.host_model.specs.declared.key.Key.{Key};
ghost use Rattle.host_model.specs.DeskRules.{DeskRules};
ghost use Rattle.host_model.specs.Journal.{JournalEntry, ServiceRules, Legal, after, after_call};
ghost use Rattle.call_history.specs.Calls.{calls_by, asks_of, AllAllowed};
ghost use Rattle.call_history.specs.History.{meaning_after, IsHistory};
ghost use Rattle.machine_model.specs.HallRule.{HallGives};
ghost use Rattle.machine_model.specs.OwnCalls.{HallMay, longest_payload, summed_calls, adds_key, frees_key, any_of, submits_key};
ghost use Rattle.machine_model.specs.OwnLoop.{CollectsItsOwn};
ghost use Rattle.machine_model.specs.Loop.{Loop};
ghost use Rattle.machine_model.specs.Machine.{HaveAllEnded};
ghost use Rattle.machine_model.specs.Merge.{LoopItem, no_loop, calls_in, Weaves};
ghost use Rattle.hub_model.specs.HubState.{HubState, IsOpenedHub, IsNewHub, whole_key, as_hall};
ghost use Rattle.hub_model.specs.HubRule.{HubCall, HubAsk, HubGives, HubOperation, submit_from};
ghost use Rattle.hub_model.specs.HubMay.{HubMay, HubCan, SubmitOwn, share, any_ask};
ghost use Rattle.hub_model.specs.Seen.{replays, seen_part, seen_asks, seen_seat, seen_calls, own_entries};
ghost use Rattle.hub_model.specs.OneHall.{hall_calls, all_put, closes_hub, any_told};
ghost use Rattle.hub_model.specs.Talk.{TalksInOrder, IsHubHistory};

/// What one loop sees of a history of the hub is a history of a hall, whose services give the answers that the loop's entries have
/// at last (`history`), and it ends with what the loop sees of the hub's end (`end`). Of each seat it sees what that seat asked, as
/// far as it is seen at all (`asks`).
pub fn each_loop_sees_a_hall<C, A, M>()
    ensures history { (n l : ℕ) (default : A) (r : ServiceRules C A M) (hub : HubState C A M) (log : List (HubCall C A M)) (final : List (JournalEntry C A)) →
        IsHistory (HubGives n r) hub log → SubmitOwn n log → final ≡ own_entries n l (meaning_after hub log).journal →
        IsHistory (HallGives (replays {C = C} default)) (seen_part n l final hub) (seen_calls n l final log) }
    ensures end { (n l : ℕ) (default : A) (r : ServiceRules C A M) (hub : HubState C A M) (log : List (HubCall C A M)) (final : List (JournalEntry C A)) →
        IsHistory (HubGives n r) hub log → SubmitOwn n log → final ≡ own_entries n l (meaning_after hub log).journal →
        meaning_after (seen_part n l final hub) (seen_calls n l final log) ≡ seen_part n l final (meaning_after hub log) }
    ensures asks { (n l : ℕ) (final : List (JournalEntry C A)) (log : List (HubCall C A M)) (seat : ℕ) →
        calls_by (seen_seat l seat) (asks_of (seen_calls n l final log)) ≡ seen_asks n l (calls_by seat (asks_of log)) }
{}

/// What each seat was allowed to ask of the hub is allowed in what one loop sees of it.
pub fn each_loop_sees_what_is_allowed<C, A, M>()
    ensures { (n l : ℕ) (default : A) (r : ServiceRules C A M) (hub : HubState C A M) (log : List (HubCall C A M)) (final : List (JournalEntry C A)) →
        AllAllowed (HubMay n r) hub (asks_of log) →
        AllAllowed (HallMay (replays {C = C} default)) (seen_part n l final hub) (asks_of (seen_calls n l final log)) }
{}

/// What each seat knows of its own asks of a hub is enough for what it asks: the keys of all loops together are within the hub's room, since each loop's are
/// within its share.
pub fn own_calls_of_a_hub_suffice<C, A, M>()
    ensures { (n : ℕ) (default : A) (r : ServiceRules C A M) (hub : HubState C A M) (log : List (HubCall C A M)) (seat : ℕ) (op : HubOperation C) →
        0 < n → IsHistory (HubGives n r) hub log → AllAllowed (HubMay n r) hub (asks_of log) → HubMay n r hub seat (calls_by seat (asks_of log)) op →
        HubCan n r (meaning_after hub log) op }
{}

/// A loop asks a hub as one asks a hall of its own. Where by what it sees of its own asks it has room for a key, within its share, it may submit it, under its
/// whole number (`may`); and of what it collects each was submitted by it, and not collected before (`told`).
pub fn a_loop_asks_a_hub_as_a_hall<C, A, M>()
    ensures may { (n l : ℕ) (r : ServiceRules C A M) (hub : HubState C A M) (own : List (HubAsk C A)) (key : Key) (payload : List ℕ) →
        l < n → IsOpenedHub hub → SubmitOwn n own →
        summed_calls adds_key (seen_asks n l own) < share n + summed_calls frees_key (seen_asks n l own) → any_of (submits_key key) (seen_asks n l own) ≡ false →
        length payload ≤ longest_payload → HubMay n r hub l own (submit_from l (whole_key n l key) payload) }
    ensures told { (n l : ℕ) (default : A) (r : ServiceRules C A M) (hub : HubState C A M) (log : List (HubCall C A M)) →
        IsOpenedHub hub → IsHistory (HubGives n r) hub log → AllAllowed (HubMay n r) hub (asks_of log) →
        CollectsItsOwn (seen_asks n l (calls_by l (asks_of log))) × SubmitOwn n (calls_by l (asks_of log)) }
{}

/// One history of a hub, and one loop's own order: that loop's connections have had whole conversations, and its calls stand in order.
pub fn each_loop_talks<C, A, M>()
    ensures { (n l : ℕ) (default : A) (d : DeskRules C A) (r : ServiceRules C A M) (memories : List M) (hub : HubState C A M) (log : List (HubCall C A M)) (weave : List (LoopItem C A))
        (loop : Loop) (causes : List EndCause) →
        d.max < 2 ^ 31 → l < n → IsHubHistory n d r memories hub log → seen_asks n l (calls_by l (asks_of log)) ≡ calls_in weave →
        Weaves d.max no_loop weave loop → HaveAllEnded loop causes →
        TalksInOrder d loop.tape (own_entries n l (meaning_after hub log).journal) causes }
{}

/// The hub as one hall: but for what is collected, a history of the hub is one of a hall with the same services, which keeps all outcomes.
pub fn a_hub_is_one_hall<C, A, M>()
    ensures history { (n : ℕ) (r : ServiceRules C A M) (hub : HubState C A M) (log : List (HubCall C A M)) →
        IsHistory (HubGives n r) hub log → IsHistory (HallGives r) (as_hall hub []) (hall_calls n [] log) }
    ensures end { (n : ℕ) (r : ServiceRules C A M) (hub : HubState C A M) (log : List (HubCall C A M)) →
        IsHistory (HubGives n r) hub log → meaning_after (as_hall hub []) (hall_calls n [] log) ≡ as_hall (meaning_after hub log) (all_put [] log) }
{}

/// The one journal of a new hub is a legal history (`legal`). Until it failed the services are behind it (`behind`), and then one call ahead of it (`ahead`).
pub fn one_journal_is_legal<C, A, M>()
    ensures legal { (n : ℕ) (r : ServiceRules C A M) (memories : List M) (hub : HubState C A M) (log : List (HubCall C A M)) →
        IsNewHub memories hub → IsHistory (HubGives n r) hub log → Legal r memories (meaning_after hub log).journal }
    ensures behind { (n : ℕ) (r : ServiceRules C A M) (memories : List M) (hub : HubState C A M) (log : List (HubCall C A M)) →
        IsNewHub memories hub → IsHistory (HubGives n r) hub log →
        (meaning_after hub log).broken ≡ false → (meaning_after hub log).memories ≡ after r memories (meaning_after hub log).journal }
    ensures ahead { (n : ℕ) (r : ServiceRules C A M) (memories : List M) (hub : HubState C A M) (log : List (HubCall C A M)) →
        IsNewHub memories hub → IsHistory (HubGives n r) hub log → (meaning_after hub log).broken ≡ true →
        (call : C) × ((meaning_after hub log).memories ≡ after_call r (after r memories (meaning_after hub log).journal) call) }
{}

/// A newly opened hub is broken, or tells of a failed journal, only where its journal's count rose; and where workers close it only once they were told so, it is
/// closed only where a loop has closed it or the count rose. Where it isn't broken the count is as it was.
pub fn trouble_of_a_hub_shows<C, A, M>()
    ensures broken { (n : ℕ) (r : ServiceRules C A M) (hub : HubState C A M) (log : List (HubCall C A M)) →
        IsOpenedHub hub → IsHistory (HubGives n r) hub log → (meaning_after hub log).broken ≡ true → Rose hub.faults (meaning_after hub log).faults }
    ensures whole { (n : ℕ) (r : ServiceRules C A M) (hub : HubState C A M) (log : List (HubCall C A M)) →
        IsHistory (HubGives n r) hub log → (meaning_after hub log).broken ≡ false → (meaning_after hub log).faults ≡ hub.faults }
    ensures told { (n : ℕ) (r : ServiceRules C A M) (hub : HubState C A M) (log : List (HubCall C A M)) →
        IsOpenedHub hub → IsHistory (HubGives n r) hub log → any_told (asks_of log) ≡ true → Rose hub.faults (meaning_after hub log).faults }
    ensures closed { (n : ℕ) (d : DeskRules C A) (r : ServiceRules C A M) (memories : List M) (hub : HubState C A M) (log : List (HubCall C A M)) →
        0 < n → IsHubHistory n d r memories hub log → (meaning_after hub log).closed ≡ true →
        ((l : ℕ) × (l < n) × (any_ask closes_hub (calls_by l (asks_of log)) ≡ true)) ⊎ Rose hub.faults (meaning_after hub log).faults }
{}
