//! Laws of the values of expressions. Each is the contract of a function with an empty body.

ghost use Rattle.std.specs.Prelude.{◌≡◌, ◌∷◌, ◌++◌, [], List, codes, length, map};
ghost use Rattle.m11_base.specs.Devices.{Bytes};
ghost use Rattle.m11_scan.specs.Cutting.{Lexeme, tokens_of};
ghost use Rattle.m11_scan.specs.Expressions.{expression_length, role_of};
ghost use Rattle.m11_scan.specs.declared.expressions.Role.TheVariants.{Prefix, Sign, Term};
ghost use Rattle.m11_scan.specs.declared.radix.Radix.{Radix};
ghost use Rattle.m11_scan.specs.declared.radix.Radix.TheVariants.{Binary, Decimal, Octal};
ghost use Rattle.m11_scan.specs.declared.sort.Sort.TheVariants.{BinaryRadix, Complement, DecimalRadix, OctalRadix};
ghost use Rattle.m11_scan.specs.declared.sort.Sort.TheVariants.{Greater, Less, Minus, Percent, Plus};
ghost use Rattle.m11_scan_expressions.specs.declared.operators.Operator.{Operator};
ghost use Rattle.m11_scan_expressions.specs.Laws.{AreSteps, IsOperator, IsTerm, Step, left_fold, written};
ghost use Rattle.m11_scan_expressions.specs.Operations.{as_register, combined, complemented, negated};
ghost use Rattle.m11_scan.specs.declared.cutting.Token.{Token};
ghost use Rattle.m11_scan_expressions.specs.declared.names.Symbol.{Symbol};
ghost use Rattle.m11_scan_expressions.specs.Quantities.{Quantity, absolute};
ghost use Rattle.m11_scan_expressions.specs.Symbols.{AgreeOn, AreSame, symbols_of};
ghost use Rattle.m11_scan_expressions.specs.Terms.{Item, atom_value, item};
ghost use Rattle.m11_scan_expressions.specs.Values.{items_of, sorts_of, value_of};

/// If an operator outside brackets is followed by a single term, which may be missing, the value of the whole expression is that of the
/// operator applied to the value of the tokens before it and the value of this term.
#[tactic(auto, using(crate::proofs::Folds::joined_value))]
pub fn an_operator_joins_its_sides()
    ensures { (radix : Radix) (front back : List Item) (mark : Item) (operator : Operator)
        → IsOperator operator front mark → IsTerm back
        → value_of radix (front ++ mark ∷ back) ≡ combined operator (value_of radix front) (value_of radix back) }
{}

/// If operators join terms of one token each, they are applied from left to right.
#[tactic(auto, using(crate::proofs::Folds::folded_value))]
pub fn operators_apply_from_left_to_right()
    ensures { (radix : Radix) (first : Item) (steps : List Step) → role_of first.sort ≡ Term → AreSteps steps
        → value_of radix (first ∷ written steps) ≡ left_fold radix (atom_value radix first.atom) steps }
{}

/// Brackets around tokens that all belong to one expression make a term with the same value and flags. This holds even if a bracket
/// inside isn't closed: the `>` then closes that one, and the outer one isn't closed.
#[tactic(auto, using(crate::proofs::OpenBrackets::bracketed_value))]
pub fn brackets_keep_the_value()
    ensures { (radix : Radix) (less greater : Item) (items : List Item) → less.sort ≡ Less → greater.sort ≡ Greater
        → expression_length (sorts_of items) ≡ length items
        → value_of radix (less ∷ (items ++ greater ∷ [])) ≡ value_of radix items }
{}

/// A token that is a term, an expression in brackets, and a term after a sign or another prefix are terms: they contain no
/// operator outside brackets.
pub fn terms_are_made_of_terms()
    ensures token { (token : Item) → role_of token.sort ≡ Term → IsTerm (token ∷ []) }
    ensures signed { (mark : Item) (term : List Item) → role_of mark.sort ≡ Sign → IsTerm term → IsTerm (mark ∷ term) }
    ensures prefixed { (mark : Item) (term : List Item) → role_of mark.sort ≡ Prefix → IsTerm term → IsTerm (mark ∷ term) }
    ensures bracketed { (less greater : Item) (items : List Item) → less.sort ≡ Less → greater.sort ≡ Greater
        → expression_length (sorts_of items) ≡ length items → IsTerm (less ∷ (items ++ greater ∷ [])) }
{}

/// A prefix applies to the value of the whole term after it: `+` leaves it unchanged, `-` negates it, `^C` complements it, and
/// `%` makes it a register. After `^B`, `^O` or `^D` the term is evaluated in that radix, even inside brackets.
pub fn prefixes_apply_to_the_term_after_them()
    ensures plus { (radix : Radix) (mark : Item) (term : List Item) → mark.sort ≡ Plus → IsTerm term
        → value_of radix (mark ∷ term) ≡ value_of radix term }
    ensures minus { (radix : Radix) (mark : Item) (term : List Item) → mark.sort ≡ Minus → IsTerm term
        → value_of radix (mark ∷ term) ≡ negated (value_of radix term) }
    ensures complement { (radix : Radix) (mark : Item) (term : List Item) → mark.sort ≡ Complement → IsTerm term
        → value_of radix (mark ∷ term) ≡ complemented (value_of radix term) }
    ensures register { (radix : Radix) (mark : Item) (term : List Item) → mark.sort ≡ Percent → IsTerm term
        → value_of radix (mark ∷ term) ≡ as_register (value_of radix term) }
    ensures binary { (radix : Radix) (mark : Item) (term : List Item) → mark.sort ≡ BinaryRadix → IsTerm term
        → value_of radix (mark ∷ term) ≡ value_of Binary term }
    ensures octal { (radix : Radix) (mark : Item) (term : List Item) → mark.sort ≡ OctalRadix → IsTerm term
        → value_of radix (mark ∷ term) ≡ value_of Octal term }
    ensures decimal { (radix : Radix) (mark : Item) (term : List Item) → mark.sort ≡ DecimalRadix → IsTerm term
        → value_of radix (mark ∷ term) ≡ value_of Decimal term }
    ensures in_brackets { (radix : Radix) (value_of_symbol : Symbol → Quantity)
        → value_of radix (map (item value_of_symbol) (tokens_of (codes "^D<10+10>"))) ≡ absolute 0o24 0 }
{}

/// The value of an expression in a radix depends on no symbols but those in it.
#[tactic(auto, using(crate::proofs::Meanings::agreeing_values))]
pub fn symbols_that_are_read_decide()
    ensures { (radix : Radix) (line : Bytes) (first second : Symbol → Quantity) (tokens : List Token)
        → AgreeOn (symbols_of line tokens) first second
        → value_of radix (items_of first line tokens) ≡ value_of radix (items_of second line tokens) }
{}

/// Expressions whose tokens differ only in the case of letters, outside `'c` and `"cc`, have the same value.
#[tactic(auto, using(crate::proofs::Cases::same_values))]
pub fn case_makes_no_difference()
    ensures { (radix : Radix) (value_of_symbol : Symbol → Quantity) (first second : List Lexeme) → AreSame first second
        → value_of radix (map (item value_of_symbol) first) ≡ value_of radix (map (item value_of_symbol) second) }
{}
