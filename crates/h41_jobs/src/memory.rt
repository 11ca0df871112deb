//! The sizes of main memory with which the bench can execute a deck.

ghost use Rattle.std.specs.Prelude.{◌≡◌};
ghost use Rattle.h41_jobs.specs.MemorySizes.{size_written};

/// The calculator with which a deck is executed, by the size of its main memory.
#[derive(Clone, Copy, Debug, PartialEq, Eq)]
pub enum MemorySize {
    /// An HP-41C without memory modules: 64 registers.
    BareC,
    /// An HP-41C with one memory module: 128 registers.
    OneModule,
    /// An HP-41C with two memory modules: 192 registers.
    TwoModules,
    /// An HP-41C with three memory modules: 256 registers.
    ThreeModules,
    /// An HP-41CV, or an HP-41C with four memory modules: 320 registers.
    Cv,
}

/// Returns the size of memory with the number of registers that a text contains, in exactly these digits: `64`, `128`,
/// `192`, `256` or `320`. `None` for any other text.
pub fn written_size(text: &str) -> Option<MemorySize>
    ensures { result ≡ size_written text.now }
{
    match text {
        "64" => Some(MemorySize::BareC),
        "128" => Some(MemorySize::OneModule),
        "192" => Some(MemorySize::TwoModules),
        "256" => Some(MemorySize::ThreeModules),
        "320" => Some(MemorySize::Cv),
        _ => None,
    }
}
