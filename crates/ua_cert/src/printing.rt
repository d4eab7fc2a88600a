//! Certificates written as text.

ghost use Rattle.std.specs.Prelude.{◌≡◌, Ok, IfOk};
ghost use Rattle.ua_cert.specs.Certificates.{IsReadAs};
ghost use Rattle.ua_cert.specs.Writing.{written};

use crate::certs::Cert;
use crate::objects::object;
use std::alloc::{AllocError, Global};

impl Cert {
    /// The certificate as compact JSON on one line, with ascending keys. `read` gives the same certificate again.
    pub fn write(&self, alloc: Global) -> Result<Vec<u8>, AllocError>
        ensures text { IfOk result (λ bytes. bytes.items ≡ written self.now) }
        ensures read_back { IfOk result (λ bytes. IsReadAs bytes.items (Ok self.now)) }
    {
        object(alloc, self)?.to_vec(alloc)
    }
}
