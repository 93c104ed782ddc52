// The laws of the timer octet, each the contract of a function.
ghost use Rattle.backoff.specs.Laws.{TableRead, WorkedValues};

// The 256 octets read to exactly what the standard's table says.
pub fn octets_read_by_table()
    ensures { TableRead }
{}

// The worked values of the timer octet.
pub fn worked_values()
    ensures { WorkedValues }
{}
