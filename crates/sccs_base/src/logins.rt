ghost use Rattle.std.specs.Prelude.{◌≡◌, ◌<◌, ◌↔◌, List, is_some, IsTrue, IfSome, codes};
ghost use Rattle.sccs_base.specs.Login.{IsLogin, is_login};

use crate::constants::{BLANK, LOGIN_LENGTH};
use crate::short_bytes::ShortBytes;
use std::marker::Model;

// whether bytes are a login
fn fits(bytes: &[u8]) -> bool
    ensures { IsTrue result ↔ IsLogin bytes.now }
{
    0 < bytes.len() && bytes.len() <= LOGIN_LENGTH && bytes.iter().all(|b| BLANK < *b)
}

/// A login: 1 to 64 bytes, each above 32. Contracts see it as its bytes.
#[derive(Clone, Copy)]
pub struct Login {
    bytes: ShortBytes<LOGIN_LENGTH>,
}

impl Login {
    /// The login that bytes are; None exactly where they are none.
    pub fn read(bytes: &[u8]) -> Option<Login>
        ensures found { IfSome result (λ login. login ≡ bytes.now) }
        ensures exact { is_some result ≡ is_login bytes.now }
    {
        if fits(bytes) {
            let bytes = ShortBytes::new(bytes);
            Some(Login { bytes })
        } else {
            None
        }
    }

    /// The login where none is known.
    pub fn nobody() -> Login
        ensures { result ≡ codes "nobody" }
    {
        Login {
            bytes: ShortBytes::new(b"nobody"),
        }
    }

    pub fn bytes(&self) -> &[u8]
        ensures value { result.now ≡ self.now }
        ensures login { IsLogin self.now }
    {
        self.bytes.bytes()
    }
}

impl Model for Login {
    ghost use Rattle.std.specs.Prelude.{List, ℕ};
    ghost use Rattle.sccs_base.specs.Login.{IsLogin};

    ghost Value = { List ℕ };

    ghost view = { λ l. l.bytes };

    ghost invariant = { λ l. IsLogin l.bytes };

    ghost inverse = { λ bytes. record { bytes = bytes } };
}
