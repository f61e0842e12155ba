// The spelling of signs and keywords.
ghost use Rattle.std.specs.Prelude.{◌≡◌, ◌≤◌};
ghost use Rattle.notation.specs.Layout.{mark_spelling};

use notation::kinds::{
    ABOVE, AND_WORD, ARROW, CASE_WORD, CLASS_WORD, COLON, COMMA, DEFAULT_WORD, DEFINE_WORD,
    ELSE_WORD, EQUALS, EXCLAMATION, FALSE_WORD, IF_WORD, INCLUDE_WORD, LEFT_BRACE, LEFT_ROUND,
    LEFT_SQUARE, MINUS_SIGN, NODE_WORD, OR_WORD, PLUS_SIGN, QUESTION, RIGHT_BRACE, RIGHT_ROUND,
    RIGHT_SQUARE, SLASH, TRUE_WORD, TWO_EQUALS,
};

pub fn spelling(kind: u8) -> &'static [u8]
    requires { (7 ≤ kind) × (kind ≤ 36) }
    ensures { result.now ≡ mark_spelling kind }
{
    match kind {
        LEFT_BRACE => b"{",
        RIGHT_BRACE => b"}",
        LEFT_ROUND => b"(",
        RIGHT_ROUND => b")",
        LEFT_SQUARE => b"[",
        RIGHT_SQUARE => b"]",
        COLON => b":",
        COMMA => b",",
        ARROW => b"=>",
        QUESTION => b"?",
        EXCLAMATION => b"!",
        PLUS_SIGN => b"+",
        MINUS_SIGN => b"-",
        SLASH => b"/",
        ABOVE => b">",
        TWO_EQUALS => b"==",
        EQUALS => b"=",
        AND_WORD => b"and",
        OR_WORD => b"or",
        TRUE_WORD => b"true",
        FALSE_WORD => b"false",
        DEFAULT_WORD => b"default",
        IF_WORD => b"if",
        ELSE_WORD => b"else",
        CASE_WORD => b"case",
        CLASS_WORD => b"class",
        INCLUDE_WORD => b"include",
        NODE_WORD => b"node",
        DEFINE_WORD => b"define",
        _ => b"inherits",
    }
}
