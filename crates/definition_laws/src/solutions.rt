// Laws of the definitions, on which evaluations in another order rest.
ghost use Rattle.bgp_core.specs.Laws.{TripleOrderIsFree, PatternOrderIsFree, AnyPatternGoesFirst, ExtensionsCommute, ExtensionsExtend, NoOthersExtend, DataSetsAreDistinct, ExtensionsMatch, FragmentsSuffice};

/// The order of the triples changes the order of the solutions alone.
pub fn triple_order_is_free()
    ensures { TripleOrderIsFree }
{}

/// The order of the patterns changes the order of the solutions alone. So any of them may be
/// matched first.
pub fn pattern_order_is_free()
    ensures patterns { PatternOrderIsFree }
    ensures first { AnyPatternGoesFirst }
{}

/// Two patterns extend a row by two triples in either order.
pub fn extensions_commute()
    ensures { ExtensionsCommute }
{}

/// A row is the extension of another exactly where the pattern becomes the triple under it, what was
/// bound stays bound, and no other place changes. There is at most one such row.
pub fn extension_is_one()
    ensures is_one { ExtensionsExtend }
    ensures only { NoOthersExtend }
{}

/// The triples of a data set are distinct, so its solutions are those over the data set itself.
pub fn data_sets_are_distinct()
    ensures { DataSetsAreDistinct }
{}

/// A row has an extension only by a triple that the pattern's instance matches. So what extensions by the triples of a data
/// set give, those by the triples of the instance's fragment give, in another order.
pub fn fragments_suffice()
    ensures matching { ExtensionsMatch }
    ensures rows { FragmentsSuffice }
{}
