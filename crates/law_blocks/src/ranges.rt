//! Blocks, starts of scopes, scopes and bindings, each by ranges of tokens.
ghost use Rattle.law_blocks.specs.Laws.{PlainFilesAreLaid, BlocksNestOrAreApart, TokensHaveOneBlock, BlocksAreRanges, StartsAreEndsOfSpecs, ScopesAreRanges, BindingsAreRanges, PackagesAreBoundByRanges};

/// Of any two blocks of a file one ends before the other begins, or surrounds it.
pub fn blocks_nest_or_are_apart()
    ensures { BlocksNestOrAreApart }
{}

/// Each token of a file has one block.
pub fn tokens_have_one_block()
    ensures { TokensHaveOneBlock }
{}

/// Where imports are given no names, the layout of the laws is that of the files alone.
pub fn plain_files_are_laid()
    ensures { PlainFilesAreLaid }
{}

/// Each declaration has the innermost block around its token.
pub fn blocks_are_ranges()
    ensures { BlocksAreRanges }
{}

/// The scope of a declaration in a function begins at the end of its statement or spec, that of a parameter at the body.
pub fn starts_are_ends_of_specs()
    ensures { StartsAreEndsOfSpecs }
{}

/// The scope of a declaration goes from its start to the end of its block.
pub fn scopes_are_ranges()
    ensures { ScopesAreRanges }
{}

/// An identifier is bound to the declaration of its name with the innermost scope around it.
pub fn bindings_are_ranges()
    ensures { BindingsAreRanges }
{}

/// So it is in a package, some of whose imports without a name are given one.
pub fn packages_are_bound_by_ranges()
    ensures { PackagesAreBoundByRanges }
{}
