//! Laws of what is read: the function does nothing, and its contract states them.

ghost use Rattle.std.specs.Prelude.{◌≡◌, ◌⊎◌, ℕ, List, Result, Ok, Err};
ghost use Rattle.ua_cert.specs.declared.certs.Cert.{Cert};
ghost use Rattle.ua_cert.specs.declared.faults.CertError.{CertError};
ghost use Rattle.ua_cert.specs.Reading.{Reading};
ghost use Rattle.ua_cert.specs.Certificates.{IsReadAs, TellsCert, IsTold};

/// A text is read in one way. So what `write` writes of a certificate is read as that certificate, unless memory
/// runs out.
pub fn one_reading()
    ensures one { (bytes : List ℕ) (r s : Reading Cert) → IsReadAs bytes r → IsReadAs bytes s → r ≡ s }
    ensures returns { (bytes : List ℕ) (c : Cert) (r : Result Cert CertError) → IsReadAs bytes (Ok c) → TellsCert bytes r → (r ≡ Ok c) ⊎ (r ≡ Err CertError.OutOfMemory) }
{}

/// Something is told of each text: the certificate that it writes, or its first fault.
pub fn told()
    ensures { (bytes : List ℕ) → IsTold bytes }
{}
