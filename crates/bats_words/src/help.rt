ghost use Rattle.std.specs.Prelude.{◌≡◌};
ghost use Rattle.bats_words.specs.Help.{help_text};

/// What `help` writes: a line for each command.
pub fn help_text() -> &'static str
    ensures { result.now ≡ help_text }
{
    "bats source --m N --t N --seed HEX --batches N [--table N] [--from N] [--systematic]\n\
     bats relay --seed HEX --rule fixed|extra --count N\n\
     bats sink [--workers N] [--both]\n\
     bats replay [--workers N] [--both | --pool]\n\
     bats show\n\
     bats check [--workers N]\n\
     bats trial --number N --m N --t N --length N --batches N --relays N --loss N [--table N] [--workers N]\n\
     bats help\n"
}
