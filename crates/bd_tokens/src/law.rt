//! Laws of tokens. Each function says one of them: its body is empty, and its clause is the law,
//! which the definitions alone prove.
ghost use Rattle.bd_tokens.specs.Walks.{EachIsAmong, EachIsHere};

/// Each walk that is here is at a place of those among the tokens.
pub fn each_walk_is_among()
    ensures { EachIsAmong }
{}

/// Each walk at a place of those among the tokens is here.
pub fn each_walk_is_here()
    ensures { EachIsHere }
{}
