ghost use Rattle.std.specs.Prelude.{◌≡◌, [], ◌≤◌, length, IfOk};

use crate::NoMemory;
use std::alloc::Global;
use std::marker::Model;
use std::mem::size_of;
use std::sync::Arc;

/// The most bytes that a message keeps in place.
pub(crate) const SHORT: usize = 14;

/// A byte string that never changes, of any length. Contracts see its bytes.
///
/// It has 16 bytes: up to 14 bytes stand in place, and longer ones are shared among all copies.
#[derive(Drop)]
pub struct Msg {
    form: Form,
}

const _: () = prove!(size_of::<Msg>() == 16);

/// Where the bytes of a message stand.
#[derive(Drop)]
pub(crate) enum Form {
    /// The first bytes of the array, as many as the number says.
    Short(u8, [u8; 14]),
    /// Shared with each copy.
    Shared(Arc<Vec<u8>>),
    /// Not shared yet: a copy of it takes memory.
    Sole(Box<Vec<u8>>),
}

impl Model for Msg {
    ghost use Rattle.std.specs.Prelude.{List, ℕ};

    ghost Value = { List ℕ };

    ghost use Rattle.p9_word.specs.Form.{bytes_of, IsForm};

    ghost view = { λ m. bytes_of m.form };

    ghost invariant = { λ m. IsForm m.form };
}

impl Msg {
    /// A message of no bytes.
    pub fn new() -> Msg
        ensures { result ≡ [] }
    {
        Msg {
            form: Form::Short(0, [0; 14]),
        }
    }

    /// A message of a few bytes. It takes no memory.
    pub(crate) fn short(bytes: &[u8]) -> Msg
        requires { length bytes.now ≤ SHORT }
        ensures { result ≡ bytes.now }
    {
        let mut all = [0; 14];
        all[..bytes.len()].copy_from_slice(bytes);
        Msg {
            form: Form::Short(bytes.len() as u8, all),
        }
    }

    /// A message over these bytes, which its copies share.
    pub(crate) fn shared(bytes: Arc<Vec<u8>>) -> Msg
        ensures { result ≡ bytes.value.items }
    {
        Msg {
            form: Form::Shared(bytes),
        }
    }

    /// A message over these bytes, which no copy shares.
    pub(crate) fn sole(bytes: Box<Vec<u8>>) -> Msg
        ensures { result ≡ bytes.value.items }
    {
        Msg {
            form: Form::Sole(bytes),
        }
    }

    /// A message of these bytes.
    pub fn from_slice(alloc: Global, bytes: &[u8]) -> Result<Msg, NoMemory>
        ensures { IfOk result (λ m. m ≡ bytes.now) }
    {
        if bytes.len() <= SHORT {
            return Ok(Msg::short(bytes));
        }
        let bytes = Vec::from_slice(alloc, bytes)?;
        Ok(Msg::shared(Arc::new(alloc, bytes)?))
    }

    /// The bytes.
    pub fn as_slice(&self) -> &[u8]
        ensures { result.now ≡ self.now }
    {
        match &self.form {
            Form::Short(len, bytes) => &bytes[..*len as usize],
            Form::Shared(bytes) => bytes.as_slice(),
            Form::Sole(bytes) => bytes.as_slice(),
        }
    }

    /// A message of the same bytes. They are shared and not copied, so it costs the same at any length.
    pub fn copy(&self) -> Result<Msg, NoMemory>
        ensures { IfOk result (λ m. m ≡ self.now) }
    {
        let form = match &self.form {
            Form::Short(len, bytes) => Form::Short(*len, *bytes),
            Form::Shared(bytes) => Form::Shared(Arc::try_clone(bytes)?),
            Form::Sole(bytes) => {
                let alloc = *bytes.allocator();
                let bytes = Vec::from_slice(alloc, bytes.as_slice())?;
                Form::Shared(Arc::new(alloc, bytes)?)
            }
        };
        Ok(Msg { form })
    }
}
