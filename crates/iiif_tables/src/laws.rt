//! Laws of every table. The functions compute nothing: their contracts are the laws, for the crates above.

ghost use Rattle.std.specs.Prelude.{ℕ, Bool};
ghost use Rattle.iiif_tables.specs.Cache.{Kept};
ghost use Rattle.iiif_tables.specs.Laws.{AgainCountsNothing, AgainCountsTickets, AgainKeepsEach, AgainLeavesCache, AgainLetsTicketsDiffer};
ghost use Rattle.iiif_tables.specs.Laws.{AgainMarks, EmptyCountsTickets, EmptyIsBook, EmptyIsCache, EmptyTicketsDiffer, EnterCountsTickets};
ghost use Rattle.iiif_tables.specs.Laws.{EnterGivesNewTicket, EnterGivesNoOpenTicket, EnterKeepsEach, EnterKeepsLeads, EnterLeavesBook};
ghost use Rattle.iiif_tables.specs.Laws.{EnterLeavesCache, EnterLetsTicketsDiffer, EnterOpens, EvictKeepsEach, EvictLeavesCache};
ghost use Rattle.iiif_tables.specs.Laws.{FoundPasses, LandCloses, LandCountsTickets, LandKeepsEach, LandKeepsLeads, LandLeavesBook};
ghost use Rattle.iiif_tables.specs.Laws.{LandLeavesCache, LandLetsTicketsDiffer, PutKeepsEach, PutLeavesCache, TouchKeepsEach};
ghost use Rattle.iiif_tables.specs.Laws.{TouchLeavesCache, WithoutKeepsEach, WithoutLeavesCache};

/// So no key has two entries, the bytes are within the limit, and the lists within their room.
pub fn caches_stay_within_limits<K: Eq, V>()
    ensures empty { (size : K → V → ℕ) → EmptyIsCache K.eq size }
    ensures put { (size : K → V → ℕ) → PutLeavesCache K.eq size }
    ensures touch { (size : K → V → ℕ) → TouchLeavesCache K.eq size }
    ensures without { (size : K → V → ℕ) → WithoutLeavesCache K.eq size }
    ensures evict { (size : K → V → ℕ) → EvictLeavesCache K.eq size }
    ensures enter { (size : K → V → ℕ) → EnterLeavesCache K.eq size }
    ensures again { (size : K → V → ℕ) → AgainLeavesCache K.eq size }
    ensures land { (size : K → V → ℕ) → LandLeavesCache K.eq size }
{}

/// So what is true of each entry stays true, where it is true of each that is put or lands; and it is true of what is found.
pub fn entries_keep_what_is_true<K: Eq, V>()
    ensures put { (test : K × Kept V → Bool) (size : K → V → ℕ) → PutKeepsEach test size K.eq }
    ensures touch { (test : K × Kept V → Bool) → TouchKeepsEach test K.eq }
    ensures without { (test : K × Kept V → Bool) → WithoutKeepsEach test K.eq }
    ensures evict { (test : K × Kept V → Bool) (size : K → V → ℕ) → EvictKeepsEach test size }
    ensures enter { (test : K × Kept V → Bool) → EnterKeepsEach test K.eq }
    ensures again { (test : K × Kept V → Bool) → AgainKeepsEach test K.eq }
    ensures land { (test : K × Kept V → Bool) (size : K → V → ℕ) → LandKeepsEach test size K.eq }
    ensures found { (test : K × Kept V → Bool) → FoundPasses test K.eq }
{}

/// So the counts add up.
pub fn counts_add_up<K: Eq, V>()
    ensures empty { EmptyIsBook }
    ensures enter { EnterLeavesBook V K.eq }
    ensures again { AgainCountsNothing V K.eq }
    ensures land { (size : K → V → ℕ) → LandLeavesBook K.eq size }
{}

/// So a flight opens, stays and closes at the place of its class and key, whatever is done at another.
pub fn flights_keep_their_places<K: Eq, V>()
    ensures enter { EnterOpens V K.eq }
    ensures again { AgainMarks V K.eq }
    ensures land { (size : K → V → ℕ) → LandCloses K.eq size }
{}

/// So a flight that opens has a ticket that no flight of the table had before, and no two open flights have one ticket.
pub fn tickets_are_never_given_again<K: Eq, V>()
    ensures empty { EmptyCountsTickets K V }
    ensures enter { EnterCountsTickets V K.eq }
    ensures new { EnterGivesNewTicket V K.eq }
    ensures again { AgainCountsTickets V K.eq }
    ensures land { (size : K → V → ℕ) → LandCountsTickets K.eq size }
    ensures unused { EnterGivesNoOpenTicket V K.eq }
    ensures enter_leads { EnterKeepsLeads V K.eq }
    ensures land_leads { (size : K → V → ℕ) → LandKeepsLeads K.eq size }
    ensures empty_differ { EmptyTicketsDiffer K.eq V }
    ensures enter_differ { EnterLetsTicketsDiffer K.eq V }
    ensures again_differ { AgainLetsTicketsDiffer K.eq V }
    ensures land_differ { (size : K → V → ℕ) → LandLetsTicketsDiffer K.eq size }
{}
