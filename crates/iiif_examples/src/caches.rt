//! Entries that caches keep and evict, and the counts of a table. A key is a number here, and a value the length of its entry in bytes.
#![tactic(auto, unfolding(crate::proofs::Computing::caches))]

ghost use Rattle.std.specs.Prelude.{◌≡◌, true, None, Some, [], ◌∷◌, nat_eq};
ghost use Rattle.iiif_tables.specs.Cache.{empty_cache, hot_side, kept_for, main_side, victim};
ghost use Rattle.iiif_tables.specs.Flights.{again, enter, flight_number, hit, joined, led, storing};
ghost use Rattle.iiif_tables.specs.declared.table.Class.TheVariants.{Local, Wide};
ghost use Rattle.iiif_tables.specs.declared.table.Place.TheVariants.{Main, Nowhere, Peer};
ghost use Rattle.iiif_examples.specs.Caches.{book_of_failed, book_of_loaded, book_of_shared, bytes_of, entered, entry, failed};
ghost use Rattle.iiif_examples.specs.Caches.{found_again, kept, landed, loaded, put_of, shared, used};

/// Takes out key 1 when key 2 comes, as 3 * 28 = 84 is above 60 and key 0 was used since.
pub fn entry_that_was_used_longest_ago_goes()
    ensures main { used.main ≡ entry 2 ∷ entry 0 ∷ [] }
    ensures hot { used.hot ≡ [] }
    ensures gone { kept_for nat_eq 1 used ≡ None }
    ensures next { victim bytes_of used ≡ Some (entry 0) }
{}

/// Takes out what is put in hot at once, as 28 is above an eighth of main's 56, which is 7. Of 7 bytes, with 63 in all, main's oldest goes.
pub fn hot_goes_where_it_is_above_an_eighth_of_main()
    ensures main { (put_of 28 hot_side 3 used).main ≡ entry 2 ∷ entry 0 ∷ [] }
    ensures hot { (put_of 28 hot_side 3 used).hot ≡ [] }
    ensures seven { (put_of 7 hot_side 3 used).main ≡ entry 2 ∷ [] }
    ensures seven_stays { (put_of 7 hot_side 3 used).hot ≡ (3, kept 7 0) ∷ [] }
{}

/// Takes 28 bytes where there is room for 28, and changes nothing where there is room for 27.
pub fn entry_above_the_limit_is_not_put()
    ensures fits { (put_of 28 main_side 0 (empty_cache 28 8)).main ≡ entry 0 ∷ [] }
    ensures above { put_of 28 main_side 0 (empty_cache 27 8) ≡ empty_cache 27 8 }
{}

/// Drops the oldest of a list that has as many entries as it may have, here two, though there are bytes for more.
pub fn list_keeps_to_its_entries()
    ensures { (put_of 1 main_side 2 (put_of 1 main_side 1 (put_of 1 main_side 0 (empty_cache 60 2)))).main
        ≡ (2, kept 1 0) ∷ (1, kept 1 0) ∷ [] }
{}

/// Lets the first call lead and the second join it; once the value has landed, a third finds it.
pub fn calls_for_one_key_share_a_load()
    ensures second { (enter nat_eq Local 0 (entered (shared 60))).0 ≡ joined 1 }
    ensures counted { (shared 60).book ≡ book_of_shared }
    ensures landed { (loaded 60).book ≡ book_of_loaded }
    ensures third { (enter nat_eq Local 0 (loaded 60)).0 ≡ hit (kept 28 1) }
    ensures hits { (entered (loaded 60)).book.hits ≡ 1 }
    ensures other_class { (enter nat_eq Wide 0 (shared 60)).0 ≡ led 2 }
{}

/// Leads anew where the value was too large to be kept, and where the load failed: a fault isn't kept.
pub fn next_call_leads_where_nothing_was_kept()
    ensures one_byte { (enter nat_eq Local 0 (loaded 1)).0 ≡ led 2 }
    ensures failed { failed.book ≡ book_of_failed }
    ensures after { (enter nat_eq Local 0 failed).0 ≡ led 2 }
{}

/// Finds the value that another class's flight kept meanwhile. That counts as found by looking again, and as no second load.
pub fn leader_looks_again()
    ensures nothing { (again nat_eq Local 0 1 (shared 60)).0 ≡ None }
    ensures found { (again nat_eq Wide 0 2 (landed 1 (Some 28) Main ((enter nat_eq Wide 0 (shared 60)).1))).0 ≡ Some 28 }
    ensures counted { found_again.book.again_hits ≡ 1 }
    ensures loads { found_again.book.loads ≡ 1 }
{}

/// Keeps the tenth value of other nodes in hot, and not the ninth.
pub fn tenth_value_of_other_nodes_is_kept()
    ensures ninth { (storing nat_eq bytes_of Peer 9 3 (kept 1 0) used).hot ≡ [] }
    ensures tenth { (storing nat_eq bytes_of Peer 10 3 (kept 1 0) used).hot ≡ (3, kept 1 0) ∷ [] }
    ensures nowhere { storing nat_eq bytes_of Nowhere 10 3 (kept 1 0) used ≡ used }
{}

/// Numbers a tile's flights 0 and 1, and those of a block of level 1, whose rank is 2, 4 and 5.
pub fn flights_wait_for_smaller_numbers()
    ensures tile { flight_number 0 Local ≡ 0 }
    ensures tile_asked { flight_number 0 Wide ≡ 1 }
    ensures block { flight_number 2 Local ≡ 4 }
    ensures block_asked { flight_number 2 Wide ≡ 5 }
{}
