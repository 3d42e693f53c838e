//! The laws of tokens beside an inserted name.
ghost use Rattle.law_gained_names.specs.PutTokens.{TokensKeepClasses, TokensMove};

/// Each old token begins where the edit moves its offset, and keeps its class.
pub fn tokens_move()
    ensures offsets { TokensMove }
    ensures classes { TokensKeepClasses }
{}
