// The kinds of records and the operators: what the bytes for them mean, and what a record of each kind holds.
ghost use Rattle.std.specs.Prelude.{◌≡◌};
ghost use Rattle.std.specs.Result.{result_ok};
ghost use Rattle.records.specs.Kinds.{unary_of, binary_of, print_of, kind_of, same_kind, line as line_of, about as about_of};

use thiserror::Error;

#[derive(Clone, Copy, Debug, PartialEq, Eq)]
pub enum UnaryOp {
    Plus,
    Minus,
    Not,
    Complement,
}

#[derive(Clone, Copy, Debug, PartialEq, Eq)]
pub enum BinaryOp {
    Or,
    And,
    Equal,
    NotEqual,
    Less,
    AtMost,
    Greater,
    AtLeast,
    Add,
    Sub,
    Mul,
    Div,
    Rem,
    BitOr,
    BitAnd,
    Shl,
    Shr,
    BitClear,
    BitXor,
}

// What a byte that stands for no operator is turned down with.
#[derive(Clone, Copy, Debug, PartialEq, Eq, Error)]
#[error("no operator has this number")]
pub struct NotListed;

// A kind of record. An operator is part of the kind.
#[derive(Clone, Copy, Debug, PartialEq, Eq)]
pub enum Kind {
    Program,
    Var,
    TypeDecl,
    Func,
    Params,
    Param,
    Name,
    Absent,
    TypeName,
    Slice,
    Struct,
    Field,
    Empty,
    Block,
    ExprStmt,
    Return,
    ShortDecl,
    Assign,
    Print,
    Println,
    Loop,
    If,
    Break,
    Continue,
    List,
    Int,
    Rune,
    Str,
    Ident,
    Unary(UnaryOp),
    Binary(BinaryOp),
    Call,
    Index,
    Select,
    Append,
    Cast,
}

// What a record of a kind holds besides its links: nothing, a number of 64 or 32 bits, a text part, or a text part
// that is a name and so never empty.
#[derive(Clone, Copy, Debug, PartialEq, Eq)]
pub enum Form {
    Bare,
    Int,
    Rune,
    Text,
    Name,
}

// The group of kinds that stand in for each other as children.
#[derive(Clone, Copy, Debug, PartialEq, Eq)]
pub enum Class {
    Types,
    Statements,
    Expressions,
    Others,
}

// A line of the table of kinds. The number is the one that the file has.
#[derive(Clone, Copy, Debug, PartialEq, Eq)]
pub struct About {
    pub number: u8,
    pub form: Form,
    pub class: Class,
}

impl TryFrom<u8> for UnaryOp {
    type Error = NotListed;

    ghost try_from_gives = { λ op r. result_ok r ≡ unary_of op };

    fn try_from(op: u8) -> Result<UnaryOp, NotListed> {
        match op {
            1 => Ok(UnaryOp::Plus),
            2 => Ok(UnaryOp::Minus),
            3 => Ok(UnaryOp::Not),
            4 => Ok(UnaryOp::Complement),
            _ => Err(NotListed),
        }
    }
}

impl TryFrom<u8> for BinaryOp {
    type Error = NotListed;

    ghost try_from_gives = { λ op r. result_ok r ≡ binary_of op };

    fn try_from(op: u8) -> Result<BinaryOp, NotListed> {
        match op {
            1 => Ok(BinaryOp::Or),
            2 => Ok(BinaryOp::And),
            3 => Ok(BinaryOp::Equal),
            4 => Ok(BinaryOp::NotEqual),
            5 => Ok(BinaryOp::Less),
            6 => Ok(BinaryOp::AtMost),
            7 => Ok(BinaryOp::Greater),
            8 => Ok(BinaryOp::AtLeast),
            9 => Ok(BinaryOp::Add),
            10 => Ok(BinaryOp::Sub),
            11 => Ok(BinaryOp::Mul),
            12 => Ok(BinaryOp::Div),
            13 => Ok(BinaryOp::Rem),
            14 => Ok(BinaryOp::BitOr),
            15 => Ok(BinaryOp::BitAnd),
            16 => Ok(BinaryOp::Shl),
            17 => Ok(BinaryOp::Shr),
            18 => Ok(BinaryOp::BitClear),
            19 => Ok(BinaryOp::BitXor),
            _ => Err(NotListed),
        }
    }
}

// The two kinds that print share a number; the operator tells them apart.
fn print_of(op: u8) -> Option<Kind>
    ensures { result ≡ print_of op }
{
    match op {
        0 => Some(Kind::Print),
        1 => Some(Kind::Println),
        _ => None,
    }
}

fn line(number: u8, form: Form, class: Class) -> About
    ensures { result ≡ line_of number form class }
{
    About {
        number,
        form,
        class,
    }
}

impl Kind {
    // The kind that a record's first two bytes stand for. The second is read only where the kind has operators, so this
    // is no `TryFrom` of one value.
    pub fn of(number: u8, op: u8) -> Option<Kind>
        ensures { result ≡ kind_of number op }
    {
        match number {
            1 => Some(Kind::Program),
            2 => Some(Kind::Var),
            3 => Some(Kind::TypeDecl),
            4 => Some(Kind::Func),
            5 => Some(Kind::Params),
            6 => Some(Kind::Param),
            7 => Some(Kind::Name),
            8 => Some(Kind::Absent),
            10 => Some(Kind::TypeName),
            11 => Some(Kind::Slice),
            12 => Some(Kind::Struct),
            13 => Some(Kind::Field),
            20 => Some(Kind::Empty),
            21 => Some(Kind::Block),
            22 => Some(Kind::ExprStmt),
            23 => Some(Kind::Return),
            24 => Some(Kind::ShortDecl),
            25 => Some(Kind::Assign),
            26 => print_of(op),
            27 => Some(Kind::Loop),
            28 => Some(Kind::If),
            29 => Some(Kind::Break),
            30 => Some(Kind::Continue),
            40 => Some(Kind::List),
            50 => Some(Kind::Int),
            51 => Some(Kind::Rune),
            52 => Some(Kind::Str),
            53 => Some(Kind::Ident),
            54 => UnaryOp::try_from(op).ok().map(Kind::Unary),
            55 => BinaryOp::try_from(op).ok().map(Kind::Binary),
            56 => Some(Kind::Call),
            57 => Some(Kind::Index),
            58 => Some(Kind::Select),
            59 => Some(Kind::Append),
            60 => Some(Kind::Cast),
            _ => None,
        }
    }

    pub fn about(self) -> About
        ensures { result ≡ about_of self }
    {
        match self {
            Kind::Program => line(1, Form::Bare, Class::Others),
            Kind::Var => line(2, Form::Bare, Class::Statements),
            Kind::TypeDecl => line(3, Form::Bare, Class::Statements),
            Kind::Func => line(4, Form::Bare, Class::Others),
            Kind::Params => line(5, Form::Bare, Class::Others),
            Kind::Param => line(6, Form::Bare, Class::Others),
            Kind::Name => line(7, Form::Name, Class::Others),
            Kind::Absent => line(8, Form::Bare, Class::Others),
            Kind::TypeName => line(10, Form::Name, Class::Types),
            Kind::Slice => line(11, Form::Bare, Class::Types),
            Kind::Struct => line(12, Form::Bare, Class::Types),
            Kind::Field => line(13, Form::Bare, Class::Others),
            Kind::Empty => line(20, Form::Bare, Class::Statements),
            Kind::Block => line(21, Form::Bare, Class::Statements),
            Kind::ExprStmt => line(22, Form::Bare, Class::Statements),
            Kind::Return => line(23, Form::Bare, Class::Statements),
            Kind::ShortDecl => line(24, Form::Bare, Class::Statements),
            Kind::Assign => line(25, Form::Bare, Class::Statements),
            Kind::Print => line(26, Form::Bare, Class::Statements),
            Kind::Println => line(26, Form::Bare, Class::Statements),
            Kind::Loop => line(27, Form::Bare, Class::Statements),
            Kind::If => line(28, Form::Bare, Class::Statements),
            Kind::Break => line(29, Form::Bare, Class::Statements),
            Kind::Continue => line(30, Form::Bare, Class::Statements),
            Kind::List => line(40, Form::Bare, Class::Others),
            Kind::Int => line(50, Form::Int, Class::Expressions),
            Kind::Rune => line(51, Form::Rune, Class::Expressions),
            Kind::Str => line(52, Form::Text, Class::Expressions),
            Kind::Ident => line(53, Form::Name, Class::Expressions),
            Kind::Unary(_) => line(54, Form::Bare, Class::Expressions),
            Kind::Binary(_) => line(55, Form::Bare, Class::Expressions),
            Kind::Call => line(56, Form::Bare, Class::Expressions),
            Kind::Index => line(57, Form::Bare, Class::Expressions),
            Kind::Select => line(58, Form::Bare, Class::Expressions),
            Kind::Append => line(59, Form::Bare, Class::Expressions),
            Kind::Cast => line(60, Form::Bare, Class::Expressions),
        }
    }

    // Whether two kinds have the same number, as the definitions have it: operators do not count, as they do in `==`.
    pub fn is(self, other: Kind) -> bool
        ensures { result ≡ same_kind self other }
    {
        self.about().number == other.about().number
    }
}
