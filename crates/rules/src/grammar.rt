// Which children each kind of record has.
ghost use Rattle.std.specs.Prelude.{◌≡◌};
ghost use Rattle.rules.specs.Grammar.{admits as admits_of, contents as contents_of, children_of, slot as slot_of, ends as ends_at, is_in, pick as pick_of, fills};

use records::{Class, Kind};

// What may stand at one place among a record's children.
#[derive(Clone, Copy, Debug, PartialEq, Eq)]
pub enum Sort {
    // no child at all
    Nothing,
    // a child of any kind
    Anything,
    Declaration,
    Name,
    // a type as it is written
    TypeTerm,
    TypeOrAbsent,
    Expr,
    ExprOrAbsent,
    // an expression, or an absent one where a type stands before
    Value,
    Params,
    Param,
    Field,
    Statement,
    Block,
    // what may begin an if or a loop
    Init,
    // what may end a turn of a loop
    Post,
    // the second part of an if
    Else,
    Ident,
    // a list of names
    Names,
    // a list of expressions
    Exprs,
}

// The children of a record: so many, each of its sort, or any number of one sort, or at least one of it. The counts
// are cases of their own: a slice of sorts would be a reference, and a clause takes no two references for the same.
#[derive(Clone, Copy, Debug, PartialEq, Eq)]
pub enum Children {
    Leaf,
    One(Sort),
    Two(Sort, Sort),
    Three(Sort, Sort, Sort),
    Four(Sort, Sort, Sort, Sort),
    Any(Sort),
    Many(Sort),
}

fn is_in(kind: Kind, class: Class) -> bool
    ensures { result ≡ is_in class kind }
{
    kind.about().class == class
}

impl Sort {
    // Whether a record of this kind may stand here, after one of the kind `before`.
    pub fn admits(self, before: Kind, kind: Kind) -> bool
        ensures { result ≡ admits_of self before kind }
    {
        match self {
            Sort::Nothing => false,
            Sort::Anything => true,
            Sort::Declaration => kind.is(Kind::Var)
                || kind.is(Kind::TypeDecl)
                || kind.is(Kind::Func),
            Sort::Name => kind.is(Kind::Name),
            Sort::TypeTerm => is_in(kind, Class::Types),
            Sort::TypeOrAbsent => is_in(kind, Class::Types) || kind.is(Kind::Absent),
            Sort::Expr => is_in(kind, Class::Expressions),
            Sort::ExprOrAbsent => is_in(kind, Class::Expressions) || kind.is(Kind::Absent),
            Sort::Value => is_in(kind, Class::Expressions)
                || kind.is(Kind::Absent) && !before.is(Kind::Absent),
            Sort::Params => kind.is(Kind::Params),
            Sort::Param => kind.is(Kind::Param),
            Sort::Field => kind.is(Kind::Field),
            Sort::Statement => is_in(kind, Class::Statements),
            Sort::Block => kind.is(Kind::Block),
            Sort::Init => kind.is(Kind::ExprStmt)
                || kind.is(Kind::ShortDecl)
                || kind.is(Kind::Assign)
                || kind.is(Kind::Absent),
            Sort::Post => kind.is(Kind::ExprStmt) || kind.is(Kind::Assign) || kind.is(Kind::Absent),
            Sort::Else => kind.is(Kind::Block) || kind.is(Kind::If) || kind.is(Kind::Absent),
            Sort::Ident => kind.is(Kind::Ident),
            Sort::Names => kind.is(Kind::List),
            Sort::Exprs => kind.is(Kind::List),
        }
    }

    // What a list that stands here must hold.
    pub fn contents(self) -> Option<Sort>
        ensures { result ≡ contents_of self }
    {
        match self {
            Sort::Names => Some(Sort::Name),
            Sort::Exprs => Some(Sort::Expr),
            _ => None,
        }
    }
}

impl Children {
    // The children that a record of this kind has: a table, not another form of the kind.
    pub fn of(kind: Kind) -> Children
        ensures { result ≡ children_of kind }
    {
        match kind {
            Kind::Program => Children::Any(Sort::Declaration),
            Kind::Var => Children::Three(Sort::Name, Sort::TypeOrAbsent, Sort::Value),
            Kind::TypeDecl => Children::Two(Sort::Name, Sort::TypeTerm),
            Kind::Func => Children::Four(Sort::Name, Sort::Params, Sort::TypeOrAbsent, Sort::Block),
            Kind::Params => Children::Any(Sort::Param),
            Kind::Param => Children::Two(Sort::Name, Sort::TypeTerm),
            Kind::Name => Children::Leaf,
            Kind::Absent => Children::Leaf,
            Kind::TypeName => Children::Leaf,
            Kind::Slice => Children::One(Sort::TypeTerm),
            Kind::Struct => Children::Many(Sort::Field),
            Kind::Field => Children::Two(Sort::Name, Sort::TypeTerm),
            Kind::Empty => Children::Leaf,
            Kind::Block => Children::Any(Sort::Statement),
            Kind::ExprStmt => Children::One(Sort::Expr),
            Kind::Return => Children::One(Sort::ExprOrAbsent),
            Kind::ShortDecl => Children::Two(Sort::Names, Sort::Exprs),
            Kind::Assign => Children::Two(Sort::Exprs, Sort::Exprs),
            Kind::Print => Children::One(Sort::Exprs),
            Kind::Println => Children::One(Sort::Exprs),
            Kind::Loop => Children::Four(Sort::Init, Sort::ExprOrAbsent, Sort::Post, Sort::Block),
            Kind::If => Children::Four(Sort::Init, Sort::Expr, Sort::Block, Sort::Else),
            Kind::Break => Children::Leaf,
            Kind::Continue => Children::Leaf,
            Kind::List => Children::Any(Sort::Anything),
            Kind::Int => Children::Leaf,
            Kind::Rune => Children::Leaf,
            Kind::Str => Children::Leaf,
            Kind::Ident => Children::Leaf,
            Kind::Unary(_) => Children::One(Sort::Expr),
            Kind::Binary(_) => Children::Two(Sort::Expr, Sort::Expr),
            Kind::Call => Children::Two(Sort::Ident, Sort::Exprs),
            Kind::Index => Children::Two(Sort::Expr, Sort::Expr),
            Kind::Select => Children::Two(Sort::Expr, Sort::Name),
            Kind::Append => Children::Two(Sort::Ident, Sort::Expr),
            Kind::Cast => Children::Two(Sort::TypeTerm, Sort::Expr),
        }
    }

    // The sort of the child at the place `i`, which counts from 0.
    pub fn slot(self, i: u16) -> Sort
        ensures { result ≡ slot_of self i }
    {
        match self {
            Children::Leaf => Sort::Nothing,
            Children::One(a) => pick(i, a, Sort::Nothing, Sort::Nothing, Sort::Nothing),
            Children::Two(a, b) => pick(i, a, b, Sort::Nothing, Sort::Nothing),
            Children::Three(a, b, c) => pick(i, a, b, c, Sort::Nothing),
            Children::Four(a, b, c, d) => pick(i, a, b, c, d),
            Children::Any(a) | Children::Many(a) => a,
        }
    }

    // Whether a record may have just `i` children.
    pub fn ends(self, i: u16) -> bool
        ensures { result ≡ ends_at self i }
    {
        match self {
            Children::Leaf => i == 0,
            Children::One(_) => i == 1,
            Children::Two(_, _) => i == 2,
            Children::Three(_, _, _) => i == 3,
            Children::Four(_, _, _, _) => i == 4,
            Children::Any(_) => true,
            Children::Many(_) => i > 0,
        }
    }
}

fn pick(i: u16, a: Sort, b: Sort, c: Sort, d: Sort) -> Sort
    ensures { result ≡ pick_of i a b c d }
{
    [a, b, c, d]
        .get(usize::from(i))
        .copied()
        .unwrap_or(Sort::Nothing)
}

// Whether the lists of a record of this kind must not be empty.
pub fn fills_lists(kind: Kind) -> bool
    ensures { result ≡ fills kind }
{
    kind.is(Kind::ShortDecl) || kind.is(Kind::Assign)
}
