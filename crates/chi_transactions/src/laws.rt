//! Laws of ids, and of whole traces.

ghost use Rattle.std.specs.Prelude.{◌≡◌, ℕ, ◌&&◌, ◌||◌, not, true};
ghost use Rattle.chi_transactions.specs.History.{CreditsAreCounted, CreditsAreGrantedOnce, CreditsAreSpentOnce, IdsAreBalanced, IdsStandAsOpened, PartsComeOnce, RequestsWait};
ghost use Rattle.chi_transactions.specs.Ids.{id_numbered, number_of};
ghost use Rattle.chi_transactions.specs.Laws.{HasFields};
ghost use Rattle.chi_transactions.specs.Parts.{both, either, has, is_among, without};
ghost use Rattle.chi_transactions.specs.declared.parts.Parts.{Parts as PartsOf};
ghost use Rattle.chi_transactions.specs.Rows.{data_row, request_row, response_row};
ghost use Rattle.chi_issue_b.specs.declared.opcodes.DataOpcode.{DataOpcode as DataKind};
ghost use Rattle.chi_issue_b.specs.declared.opcodes.RequestOpcode.{RequestOpcode as RequestKind};
ghost use Rattle.chi_issue_b.specs.declared.opcodes.ResponseOpcode.{ResponseOpcode as ResponseKind};
ghost use Rattle.chi_transactions.specs.declared.ids.Id.{Id as IdOf};

/// The row that is looked up for an opcode is its own.
/// Source: `docs/TRANSACTIONS.md`, "What is proved".
pub fn rows_are_of_their_opcodes()
    ensures requests { (kind : RequestKind) → (request_row kind).0 ≡ kind }
    ensures responses { (kind : ResponseKind) → (response_row kind).0 ≡ kind }
    ensures data_flits { (kind : DataKind) → (data_row kind).0 ≡ kind }
{}

/// Parts are sets: of two of them those of either, of both and of one without the other are what their names say, part by part.
/// Source: `docs/TRANSACTIONS.md`, "What is proved".
pub fn parts_are_sets()
    ensures either { (a b : PartsOf) → (part : ℕ) → is_among (either a b) part ≡ (is_among a part || is_among b part) }
    ensures both { (a b : PartsOf) → (part : ℕ) → is_among (both a b) part ≡ (is_among a part && is_among b part) }
    ensures without { (a b : PartsOf) → (part : ℕ) → is_among (without a b) part ≡ (is_among a part && not (is_among b part)) }
    ensures has { (a b : PartsOf) → (part : ℕ) → has a b ≡ true → is_among b part ≡ true → is_among a part ≡ true }
{}

/// Of no two ids the numbers are the same: neither of ids of two sorts, nor of two requesters, two homes, two TXNs or two DBIDs;
/// and of each its number tells which it is.
/// Source: `docs/TRANSACTIONS.md`, "What is proved".
pub fn id_numbers_differ()
    ensures told { (id : IdOf) → HasFields id → id_numbered (number_of id) ≡ id }
    ensures differ { (one : IdOf) → (other : IdOf) → HasFields one → HasFields other
        → number_of one ≡ number_of other → one ≡ other }
{}

/// The law that of an accepted trace the credits that are kept of an account are the numbers of its RetryAcks, grants, requests
/// without AllowRetry and returns. In one from the beginning no more are sent again or returned than were granted, nor than were
/// retried; and where grants don't come early, no more are granted than were retried.
/// Source: `docs/TRANSACTIONS.md`, "What is proved".
pub fn credits_of_traces()
    ensures counted { CreditsAreCounted }
    ensures spent { CreditsAreSpentOnce }
    ensures granted { CreditsAreGrantedOnce }
{}

/// The law that in an accepted trace from the beginning an id is of the cache line, the home and the opcode of the last flit that
/// opened it, or of the request whose DBID that flit opened; and what is left to come by it is what that expects, but for what has
/// come since. So each part that a flit brings is expected by the id that it names, and comes once.
/// Source: `docs/TRANSACTIONS.md`, "What is proved".
pub fn ids_of_traces()
    ensures stand { IdsStandAsOpened }
    ensures balanced { IdsAreBalanced }
    ensures once { PartsComeOnce }
{}

/// The law that in an accepted trace from the beginning a requester waits at a cache line for what its last RetryAck of a request to
/// the line says, where it has sent no request to the line since.
/// Source: `docs/TRANSACTIONS.md`, "What is proved".
pub fn requests_of_traces()
    ensures { RequestsWait }
{}
