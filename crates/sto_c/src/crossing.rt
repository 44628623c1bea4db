//! What crosses between C and the library: the structs of include/sto.h.
ghost use Rattle.std.specs.Prelude.{◌≡◌, Some, None, IfSome, IfNone};
ghost use Rattle.sto_c.specs.Crossing.{shape_in, call_in, reply_out, pair_out, row_out};

use sto_model::{Call, Operation, Reply, Shape};
use sto_part::List;

/// What an object is to be.
#[repr(C)]
#[derive(Clone, Copy)]
pub struct ShapeIn {
    pub kind: u32,
    pub size: u32,
    pub places: u32,
    pub unused: u32,
    pub value: i64,
}

impl ShapeIn {
    /// The shape; none where its kind is no kind.
    pub(crate) fn shape(&self) -> Option<Shape>
        ensures { result ≡ shape_in self.now }
    {
        match self.kind {
            0 => Some(Shape::Single(self.value)),
            1 => Some(Shape::Counter(self.value)),
            2 => Some(Shape::Array {
                len: self.size,
                value: self.value,
            }),
            3 => Some(Shape::Hash {
                buckets: self.size,
                places: self.places,
            }),
            4 => Some(Shape::Tree { leaves: self.size }),
            5 => Some(Shape::Vector {
                capacity: self.size,
            }),
            _ => None,
        }
    }
}

/// A call, with how many of its two numbers are given.
#[repr(C)]
#[derive(Clone, Copy)]
pub struct CallIn {
    pub object: u32,
    pub operation: u32,
    pub numbers: u32,
    pub unused: u32,
    pub a: i64,
    pub b: i64,
}

impl CallIn {
    /// The call; none where its operation is no operation.
    pub(crate) fn call(&self) -> Option<Call>
        ensures some { IfSome result (λ call. call_in self.now ≡ Some call) }
        ensures none { IfNone result (call_in self.now ≡ None) }
    {
        let Ok(number) = u8::try_from(self.operation) else {
            return None;
        };
        match Operation::from_code(number) {
            Some(operation) => Some(Call::new(self.object, operation, self.a, self.b)),
            None => None,
        }
    }
}

/// What a call answered.
#[repr(C)]
#[derive(Clone, Copy)]
pub struct ReplyOut {
    pub answer: u32,
    pub unused: u32,
    pub value: i64,
}

impl ReplyOut {
    /// What a reply is to C. Of pairs it tells how many they are.
    pub(crate) fn of(reply: &Reply) -> ReplyOut
        ensures { result ≡ reply_out reply.now }
    {
        let (answer, value) = match reply {
            Reply::Done => (0, 0),
            Reply::Value(value) => (1, *value),
            Reply::Flag(true) => (2, 1),
            Reply::Flag(false) => (2, 0),
            Reply::Absent => (3, 0),
            Reply::Full => (4, 0),
            Reply::Range => (5, 0),
            Reply::Pairs(pairs) => (6, i64::from(pairs.len())),
        };
        ReplyOut {
            answer,
            unused: 0,
            value,
        }
    }
}

/// A key with its value.
#[repr(C)]
#[derive(Clone, Copy)]
pub struct PairOut {
    pub key: i64,
    pub value: i64,
}

impl PairOut {
    /// What a pair is to C.
    pub(crate) fn of(pair: &(i64, i64)) -> PairOut
        ensures { result ≡ pair_out pair.now }
    {
        PairOut {
            key: pair.0,
            value: pair.1,
        }
    }
}

/// A row of an object.
#[repr(C)]
#[derive(Clone, Copy)]
pub struct RowOut {
    pub object: u32,
    pub unused: u32,
    pub key: i64,
    pub value: i64,
}

/// Rows of objects.
pub type RowsOut = List<RowOut>;

impl RowOut {
    /// What a row of an object is to C.
    pub(crate) fn of(object: u32, row: &(i64, i64)) -> RowOut
        ensures { result ≡ row_out object row.now }
    {
        RowOut {
            object,
            unused: 0,
            key: row.0,
            value: row.1,
        }
    }
}
