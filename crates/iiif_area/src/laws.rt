//! Laws of weights and of sums over parts. The functions compute nothing: their contracts are the laws, for the crates above.

ghost use Rattle.iiif_area.specs.Laws.{WeightsAddUp, NoWeightBefore, NoWeightFrom, SplitsAtColumn, SplitsAtRow, CutsAddUp, IsZeroElsewhere};
ghost use Rattle.iiif_area.specs.Laws.{PartIsCommon, PlaceIsTested, IsOfPart, PlacesGrow, IsBounded, SumsFit, MergingAdds, PiecesMerge};
ghost use Rattle.iiif_area.specs.Laws.{OthersAddNothing, BandsAreCut, CutsNest, SameSidesChangeNothing, IsSumOverRange};

/// The weights of a result column add up to the region's columns: an average is at most the greatest sample.
pub fn weights_add_up()
    ensures { WeightsAddUp }
{}

/// A part has weights only in its own result columns.
pub fn weights_end()
    ensures before { NoWeightBefore }
    ensures from { NoWeightFrom }
{}

/// The sums over the parts of a region add up to the sum over the region, however it is cut.
pub fn parts_add_up()
    ensures at_column { SplitsAtColumn }
    ensures at_row { SplitsAtRow }
    ensures however_cut { CutsAddUp }
{}

/// A region is cut into its parts in some tiles if the tiles cut its places in the image.
pub fn parts_have_places()
    ensures common { PartIsCommon }
    ensures tested { PlaceIsTested }
{}

/// A part's sums may be held at its result places alone, and are made of its samples alone.
pub fn parts_are_apart()
    ensures elsewhere { IsZeroElsewhere }
    ensures own_samples { IsOfPart }
    ensures places { PlacesGrow }
{}

/// A sum of samples stays below 2^64: it is never cut off.
pub fn sums_fit()
    ensures bounded { IsBounded }
    ensures fit { SumsFit }
{}

/// The sums of a part's pieces, tiles or blocks, merge in any order into the sums of the part.
pub fn merging_adds()
    ensures one { MergingAdds }
    ensures all { PiecesMerge }
{}

/// A band of a scaled picture is made of the tiles that have a place of it, whichever sides grow: from a sum of 0 at each place each tile
/// is added, and then the averages are taken.
pub fn bands_are_made_of_parts()
    ensures sums { OthersAddNothing }
    ensures scaled { BandsAreCut }
{}

/// A region may be cut into blocks, and each block into tiles.
pub fn cuts_nest()
    ensures { CutsNest }
{}

/// A region that keeps its sides needs no sums.
pub fn same_sides_change_nothing()
    ensures { SameSidesChangeNothing }
{}

/// A sum over a range equals std's sum over that range.
pub fn ranges_are_summed()
    ensures { IsSumOverRange }
{}
