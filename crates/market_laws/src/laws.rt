//! Laws over the definitions: each is the contract of a function that does nothing.

ghost use Rattle.market_laws.specs.Laws.{CallsAndPutsPay, SignedSumsAgree, BalancedOwesNothing, BalancedFillsCover, NothingOwedAtRays, WeakDuality, ProvedIsGreatest, LiabilityGivesCover, CoverIsOfFractions, LineCoversHold, HoldsAtMultiples, ClosedTreesHold, TreesReadOneWay, TreeCertificateCovers, WrittenTreeCovers, LineCertificateCovers, CoverAndMeasureAreOptimal};
ghost use Rattle.market_laws.specs.Bounds.{CoverAndMeasureBound};
ghost use Rattle.market_laws.specs.Limits.{BetterLimitsCover, GreatestDoesNotFall};
ghost use Rattle.market_laws.specs.Slopes.{FillsCoverAlongLines, GreatestIsAboveLines, GreatestIsConvex};
ghost use Rattle.market_laws.specs.Single.{OneLegPaysItsOption, GainsAreDifferences, LegsAreOrders, NetIsOfOptions};

/// A call pays what the basket is worth above the strike, and a put what it is worth below.
pub fn calls_and_puts_pay()
    ensures { CallsAndPutsPay }
{}

/// Sums over amounts of either sign are those of fills, where no amount is below 0.
pub fn signed_sums_agree()
    ensures { SignedSumsAgree }
{}

/// Fills that sell of each bundle just what they buy of it owe nothing at any state.
pub fn balanced_owes_nothing()
    ensures { BalancedOwesNothing }
{}

/// Such fills cover their premium.
pub fn balanced_fills_cover()
    ensures { BalancedFillsCover }
{}

/// Fills that cover a surplus owe nothing where prices grow without end.
pub fn nothing_owed_at_rays()
    ensures { NothingOwedAtRays }
{}

/// No surplus that fills cover is above the bound of a measure.
pub fn weak_duality()
    ensures { WeakDuality }
{}

/// A surplus that fills cover and a measure proves is the greatest.
pub fn proved_is_greatest()
    ensures { ProvedIsGreatest }
{}

/// A closed tree shows that its liability is enough at every state.
pub fn closed_trees_hold()
    ensures { ClosedTreesHold }
{}

/// With one underlying, so does a line cover.
pub fn line_covers_hold()
    ensures { LineCoversHold }
{}

/// Where a liability is enough at every state, the premium less it is covered.
pub fn liability_gives_cover()
    ensures { LiabilityGivesCover }
{}

/// A cover speaks of fractions alone, whatever their denominators.
pub fn cover_is_of_fractions()
    ensures { CoverIsOfFractions }
{}

/// No two trees are written alike.
pub fn trees_read_one_way()
    ensures { TreesReadOneWay }
{}

/// Fractions whose tree closes cover the surplus.
pub fn tree_certificate_covers()
    ensures { TreeCertificateCovers }
{}

/// So do those whose written tree passes the walk.
pub fn written_tree_covers()
    ensures { WrittenTreeCovers }
{}

/// Fractions whose line is covered cover the surplus.
pub fn line_certificate_covers()
    ensures { LineCertificateCovers }
{}

/// A surplus that fills cover and a measure proves is the greatest of the batch.
pub fn cover_and_measure_are_optimal()
    ensures { CoverAndMeasureAreOptimal }
{}

/// A surplus that fills cover and the bound of a measure hold the greatest surplus between them.
pub fn cover_and_measure_bound()
    ensures { CoverAndMeasureBound }
{}

/// A line holds at a state exactly where it holds at a multiple.
pub fn holds_at_multiples()
    ensures { HoldsAtMultiples }
{}

/// A bundle of one leg with count 1 pays what its option pays, and has its price.
pub fn one_leg_pays_its_option()
    ensures { OneLegPaysItsOption }
{}

/// Between numbers that are not below 0 a gain is a difference that stops at 0.
pub fn gains_are_differences()
    ensures { GainsAreDifferences }
{}

/// Where each order is one leg with count 1, the legs are the orders.
pub fn legs_are_orders()
    ensures { LegsAreOrders }
{}

/// And the net is of their options' payoffs.
pub fn net_is_of_options()
    ensures { NetIsOfOptions }
{}

/// What fills cover, they cover where a bid is higher or an ask lower.
pub fn better_limits_cover()
    ensures { BetterLimitsCover }
{}

/// So the greatest surplus does not fall when a bid rises or an ask falls.
pub fn greatest_does_not_fall()
    ensures { GreatestDoesNotFall }
{}

/// What fills cover changes with one order's limit by what its fill earns more.
pub fn fills_cover_along_lines()
    ensures { FillsCoverAlongLines }
{}

/// So the greatest surplus at any limit is on the line through an optimum, whose slope is the
/// order's fill, or above it.
pub fn greatest_is_above_lines()
    ensures { GreatestIsAboveLines }
{}

/// And the greatest surplus is convex in the limit.
pub fn greatest_is_convex()
    ensures { GreatestIsConvex }
{}
