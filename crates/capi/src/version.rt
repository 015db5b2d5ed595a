// The version of the C boundary. A caller compares it with the version that it was written for, before it calls
// anything else.
ghost use Rattle.std.specs.Prelude.{◌≡◌};
ghost use Rattle.capi.specs.Version.{version};

#[unsafe(no_mangle)]
pub extern "C" fn jc_version() -> u32
    ensures { result ≡ version }
{
    0x0c00
}
