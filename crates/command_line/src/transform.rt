ghost use Rattle.command_line.specs.Transform.{forward_of, forward_range, forward_undoes};
ghost use Rattle.command_line.specs.Transform.{inverse_of, inverse_range, inverse_undoes};
ghost use Rattle.command_line.specs.Values.{ReadsBy, SaysTransform};

use sts_token::{BlockTransform, Demo, Plain};

/// A transform that ships.
#[derive(Clone, Copy, Debug, PartialEq, Eq)]
pub enum Shipped {
    Plain,
    Demo,
}

impl Shipped {
    /// The transform of a name, `plain` or `demo`.
    pub(crate) fn read(word: &str) -> Option<Shipped>
        ensures { ReadsBy SaysTransform word.now result }
    {
        match word {
            "plain" => Some(Shipped::Plain),
            "demo" => Some(Shipped::Demo),
            _ => None,
        }
    }
}

impl BlockTransform for Shipped {
    ghost forwards = { forward_of };

    ghost inverses = { inverse_of };

    fn forward(&self, key: u64, block: u64) -> u64 {
        match self {
            Shipped::Plain => Plain.forward(key, block),
            Shipped::Demo => Demo.forward(key, block),
        }
    }

    fn inverse(&self, key: u64, block: u64) -> u64 {
        match self {
            Shipped::Plain => Plain.inverse(key, block),
            Shipped::Demo => Demo.inverse(key, block),
        }
    }

    ghost forward_range = { forward_range };

    ghost inverse_range = { inverse_range };

    ghost inverse_undoes = { inverse_undoes };

    ghost forward_undoes = { forward_undoes };
}
