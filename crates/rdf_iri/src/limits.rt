// The limits of a run.

ghost use Rattle.std.specs.Prelude.{◌≡◌, SomeIff};
ghost use Rattle.rdf_iri.specs.Limits.{Sizes, InRange, default_sizes};

use std::marker::Model;

/// How large the parts of a document may be. Past one of them a reader refuses the document.
#[derive(Clone, Copy, PartialEq, Eq, Debug)]
pub struct Limits {
    token: u64,
    depth: u64,
    bindings: u64,
    iri: u64,
}

impl Model for Limits {
    ghost use Rattle.rdf_iri.specs.Limits.{Sizes, InRange};

    ghost Value = { Sizes };

    ghost view = { λ l. record { token = l.token; depth = l.depth; bindings = l.bindings; iri = l.iri } };

    ghost invariant = { λ l.
        InRange (record { token = l.token; depth = l.depth; bindings = l.bindings; iri = l.iri }) };

    ghost inverse = { λ s. record { token = s.token; depth = s.depth; bindings = s.bindings; iri = s.iri } };
}

impl Limits {
    /// Limits of these sizes: `token` counts the characters of one token (1 to 268,435,456), `depth` the brackets
    /// and parentheses open at one time (to 1,048,576), `bindings` the prefixes bound at one time (to 16,777,216)
    /// and `iri` the bytes of one IRI (1 to 268,435,456). None outside these ranges.
    pub fn new(token: u64, depth: u64, bindings: u64, iri: u64) -> Option<Limits>
        ensures { let sizes : Sizes = record {
          token = token;
          depth = depth;
          bindings = bindings;
          iri = iri;
        } in SomeIff result (InRange sizes) sizes }
    {
        let in_range = (1..=1 << 28).contains(&token)
            && depth <= 1 << 20
            && bindings <= 1 << 24
            && (1..=1 << 28).contains(&iri);
        if in_range {
            Some(Limits {
                token,
                depth,
                bindings,
                iri,
            })
        } else {
            None
        }
    }

    /// They are in range, as all limits are.
    pub fn are_in_range(self)
        ensures { InRange self }
    {
        let _ = &self.token;
    }

    /// The characters of one token.
    pub fn token(self) -> u64
        ensures { result ≡ self.token }
    {
        self.token
    }

    /// The brackets and parentheses open at one time.
    pub fn depth(self) -> u64
        ensures { result ≡ self.depth }
    {
        self.depth
    }

    /// The prefixes bound at one time.
    pub fn bindings(self) -> u64
        ensures { result ≡ self.bindings }
    {
        self.bindings
    }

    /// The bytes of one IRI.
    pub fn iri(self) -> u64
        ensures { result ≡ self.iri }
    {
        self.iri
    }
}

impl Default for Limits {
    ghost is_default = { λ l. l ≡ default_sizes };

    /// 16,777,216 characters of a token, 1,024 brackets, 65,536 prefixes and 1,048,576 bytes of an IRI.
    fn default() -> Limits {
        Limits {
            token: 1 << 24,
            depth: 1 << 10,
            bindings: 1 << 16,
            iri: 1 << 20,
        }
    }
}
