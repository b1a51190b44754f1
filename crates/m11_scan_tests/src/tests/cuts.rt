//! Tokens of lines, with their columns. (MACRO-11 Language Reference Manual, "Symbols and expressions".)

use super::{equal, same};
use m11_scan::{Line, Sort, next_token};

// A line, a column, and the line's tokens at or after the column: the sort, the first column and the characters of each.
struct Row {
    line: &'static str,
    column: u8,
    tokens: &'static [(Sort, u8, &'static str)],
}

#[rattlefmt::skip]
static ROWS: [Row; 23] = [
    // names end at the first character that isn't a letter, a digit, `$` or `.`
    Row { line: "A: MOV R1,(SP)+ ;x", column: 0, tokens: &[(Sort::Name, 0, "A"), (Sort::Colon, 1, ":"), (Sort::Name, 3, "MOV"),
        (Sort::Name, 7, "R1"), (Sort::Comma, 9, ","), (Sort::Open, 10, "("), (Sort::Name, 11, "SP"), (Sort::Close, 13, ")"),
        (Sort::Plus, 14, "+")] },
    Row { line: "X==.+$A.1", column: 0, tokens: &[(Sort::Name, 0, "X"), (Sort::TwoEquals, 1, "=="), (Sort::Name, 3, "."),
        (Sort::Plus, 4, "+"), (Sort::Name, 5, "$A.1")] },
    Row { line: "A:: B: :", column: 0, tokens: &[(Sort::Name, 0, "A"), (Sort::TwoColons, 1, "::"), (Sort::Name, 4, "B"),
        (Sort::Colon, 5, ":"), (Sort::Colon, 7, ":")] },
    Row { line: "=== =", column: 0, tokens: &[(Sort::TwoEquals, 0, "=="), (Sort::Equals, 2, "="), (Sort::Equals, 4, "=")] },
    Row { line: ".ASCII /;/", column: 6, tokens: &[(Sort::Over, 7, "/")] },
    Row { line: "", column: 0, tokens: &[] },
    // a line has nothing past its end
    Row { line: "A", column: 1, tokens: &[] },
    Row { line: "A", column: 255, tokens: &[] },
    // a number has at most one dot or `$`
    Row { line: "18 18. 18$ 5A", column: 0, tokens: &[(Sort::Number, 0, "18"), (Sort::DecimalNumber, 3, "18."),
        (Sort::LocalSymbol, 7, "18$"), (Sort::Number, 11, "5"), (Sort::Name, 12, "A")] },
    Row { line: "1..", column: 0, tokens: &[(Sort::DecimalNumber, 0, "1."), (Sort::Name, 2, ".")] },
    Row { line: "3$4", column: 0, tokens: &[(Sort::LocalSymbol, 0, "3$"), (Sort::Number, 2, "4")] },
    Row { line: "1.$", column: 0, tokens: &[(Sort::DecimalNumber, 0, "1."), (Sort::Name, 2, "$")] },
    Row { line: "^d10^O7^b1^C1", column: 0, tokens: &[(Sort::DecimalRadix, 0, "^d"), (Sort::Number, 2, "10"), (Sort::OctalRadix, 4, "^O"),
        (Sort::Number, 6, "7"), (Sort::BinaryRadix, 7, "^b"), (Sort::Number, 9, "1"), (Sort::Complement, 10, "^C"),
        (Sort::Number, 12, "1")] },
    // `'` includes the character after it, and `"` the two after it, even if they are blanks or `;`
    Row { line: "'A'", column: 0, tokens: &[(Sort::Character, 0, "'A"), (Sort::Character, 2, "'")] },
    Row { line: "\"AB\"C", column: 0, tokens: &[(Sort::TwoCharacters, 0, "\"AB"), (Sort::TwoCharacters, 3, "\"C")] },
    Row { line: "';;'", column: 0, tokens: &[(Sort::Character, 0, "';")] },
    Row { line: "\" ;+", column: 0, tokens: &[(Sort::TwoCharacters, 0, "\" ;"), (Sort::Plus, 3, "+")] },
    Row { line: "^RABCD ^rA B ^R", column: 0, tokens: &[(Sort::Packed, 0, "^RABCD"), (Sort::Packed, 7, "^rA"), (Sort::Name, 11, "B"),
        (Sort::Packed, 13, "^R")] },
    Row { line: "+-*/&!<>%#@(),", column: 4, tokens: &[(Sort::And, 4, "&"), (Sort::Or, 5, "!"), (Sort::Less, 6, "<"),
        (Sort::Greater, 7, ">"), (Sort::Percent, 8, "%"), (Sort::NumberSign, 9, "#"), (Sort::At, 10, "@"), (Sort::Open, 11, "("),
        (Sort::Close, 12, ")"), (Sort::Comma, 13, ",")] },
    // characters that begin no token are skipped
    Row { line: "\\5?6", column: 0, tokens: &[(Sort::Number, 1, "5"), (Sort::Number, 3, "6")] },
    Row { line: "^F1", column: 0, tokens: &[(Sort::Name, 1, "F1")] },
    Row { line: "[_]`{|}~^", column: 0, tokens: &[] },
    Row { line: "\t \u{1}A\u{7f}", column: 0, tokens: &[(Sort::Name, 3, "A")] },
];

#[test]
fn tokens_are_the_longest_that_fit(rt: HostRuntime) {
    for row in &ROWS {
        let line = Line::from_bytes(row.line.as_bytes());
        let mut column = row.column;
        for (sort, start, text) in row.tokens {
            match next_token(&line, column) {
                Some(token) => {
                    equal(&rt, &row.line, &(token.sort, token.start), &(*sort, *start));
                    same(&rt, &row.line, &token.text(&line), &text.as_bytes());
                    let end = usize::from(*start).wrapping_add(text.len());
                    same(&rt, &row.line, &usize::from(token.end), &end);
                    column = token.end;
                }
                None => assert!(&rt; false, "{}: too few tokens", row.line),
            }
        }
        equal(&rt, &row.line, &next_token(&line, column), &None);
    }
}
