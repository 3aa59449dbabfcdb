// What is known of a token's kind where a function is compiled.

ghost use Rattle.std.specs.Prelude.{◌≡◌, IfSome};
ghost use Rattle.rdf_terms.specs.declared.kind.Kind.{Kind};
ghost use Rattle.rdf_driver.specs.Hints.{kind_of_hint};

use rdf_terms::Kind;

/// What is known of a token's kind. A function with a type parameter for it has an instance for each type that it
/// is called with: one that is called once is inlined there, where the kind is a constant.
pub trait Hint {
    /// What is known of the kind.
    ghost is: { Kind → Type 0 };

    /// The kind.
    fn kind(of: Kind) -> Kind
        requires { is of }
        ensures { result ≡ of };
}

/// The hint with this number: a kind, or nothing.
pub struct Hinted<const N: u8>;

impl<const N: u8> Hint for Hinted<N> {
    ghost is = { λ k. IfSome (kind_of_hint N) (λ kind. k ≡ kind) };

    #[inline(always)]
    fn kind(of: Kind) -> Kind {
        match kind_of_hint(N) {
            Some(kind) => kind,
            None => of,
        }
    }
}

/// It is the kind of this name.
pub type OnlyPnameLn = Hinted<0>;

pub type OnlySemicolon = Hinted<1>;

pub type OnlyComma = Hinted<2>;

pub type OnlyDot = Hinted<3>;

pub type OnlyA = Hinted<4>;

pub type OnlyOpenBracket = Hinted<5>;

pub type OnlyCloseBracket = Hinted<6>;

pub type OnlyOpenParen = Hinted<7>;

pub type OnlyCloseParen = Hinted<8>;

pub type OnlyLabelNode = Hinted<9>;

pub type OnlyShortString = Hinted<10>;

pub type OnlyIriRef = Hinted<11>;

pub type OnlyInteger = Hinted<12>;

pub type OnlyCarets = Hinted<13>;
/// It is `Kind::PnameLn`, of a token that the longer look sees: an instance apart.
pub type FarPnameLn = Hinted<14>;
/// Nothing is known of a token that the longer look sees: an instance apart.
pub type Far = Hinted<15>;
/// Nothing is known of a token that was seen before it was taken: an instance apart.
pub type Other = Hinted<16>;
/// Nothing is known.
pub type Any = Hinted<17>;

#[inline(always)]
fn kind_of_hint(number: u8) -> Option<Kind>
    ensures { result ≡ kind_of_hint number }
{
    match number {
        0 => Some(Kind::PnameLn),
        1 => Some(Kind::Semicolon),
        2 => Some(Kind::Comma),
        3 => Some(Kind::Dot),
        4 => Some(Kind::A),
        5 => Some(Kind::OpenBracket),
        6 => Some(Kind::CloseBracket),
        7 => Some(Kind::OpenParen),
        8 => Some(Kind::CloseParen),
        9 => Some(Kind::LabelNode),
        10 => Some(Kind::ShortString),
        11 => Some(Kind::IriRef),
        12 => Some(Kind::Integer),
        13 => Some(Kind::Carets),
        14 => Some(Kind::PnameLn),
        _ => None,
    }
}
