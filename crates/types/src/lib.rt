// `Opt254` and `VarCount` of types.rs: a byte that is a number from 0 to 254, or none, written 255. Where the Rust
// panics (a Some(255)), there is only the form that refuses.
#![tactic(auto)]

ghost use Rattle.std.specs.Prelude.{◌≡◌, not, eqb};
ghost use Rattle.types.specs.Opt.{held_by, try_new, try_constant};

// A byte that is a number from 0 to 254, or none: 255.
#[derive(Clone, Copy, Debug, PartialEq, Eq, Hash)]
pub struct Opt254 {
    pub byte: u8,
}

impl Opt254 {
    // 255 is no number that it can hold.
    pub fn try_new(v: Option<u8>) -> Option<Opt254>
        ensures { result ≡ try_new v }
    {
        match v {
            Some(255) => None,
            Some(byte) => Some(Opt254 { byte }),
            None => Some(Opt254::none()),
        }
    }

    pub fn try_some(v: u8) -> Option<Opt254>
        ensures { result ≡ try_new (Some v) }
    {
        Opt254::try_new(Some(v))
    }

    pub fn none() -> Opt254
        ensures { held_by result ≡ None }
    {
        Opt254 { byte: 255 }
    }

    pub fn to_u8(self) -> Option<u8>
        ensures { result ≡ held_by self }
    {
        if self.is_some() {
            Some(self.byte)
        } else {
            None
        }
    }

    pub fn is_none(self) -> bool
        ensures { result ≡ eqb self.byte 255 }
    {
        self.byte == 255
    }

    pub fn is_some(self) -> bool
        ensures { result ≡ not (eqb self.byte 255) }
    {
        self.byte != 255
    }
}

// A count of arguments or returned values: a number from 0 to 254, or variable, written 255.
#[derive(Clone, Copy, Debug, PartialEq, Eq, Hash)]
pub struct VarCount {
    pub count: Opt254,
}

impl VarCount {
    pub fn try_constant(constant: u8) -> Option<VarCount>
        ensures { result ≡ try_constant constant }
    {
        let count = Opt254::try_some(constant)?;
        Some(VarCount { count })
    }

    pub fn variable() -> VarCount
        ensures { held_by result.count ≡ None }
    {
        VarCount {
            count: Opt254::none(),
        }
    }

    pub fn is_variable(self) -> bool
        ensures { result ≡ eqb self.count.byte 255 }
    {
        self.count.is_none()
    }

    pub fn to_constant(self) -> Option<u8>
        ensures { result ≡ held_by self.count }
    {
        self.count.to_u8()
    }
}
