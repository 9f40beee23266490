// The two tables of 256 entries that a reading carries: that of header bytes and that of the first bytes of UTF-8. They are made once for all
// that is read, and whoever holds one knows that it is the one of the definitions.
ghost use Rattle.std.specs.Prelude.{◌≡◌};
ghost use Rattle.wtf8.specs.Leads.{lead_table};
ghost use Rattle.fields.specs.Headers.{header_table};

#[derive(Drop)]
pub struct ClassTable {
    pub classes: [u8; 256],
    pub ghost right: { classes ≡ header_table },
}

#[derive(Drop)]
pub struct LeadTable {
    pub leads: [u8; 256],
    pub ghost right: { leads ≡ lead_table },
}

#[derive(Drop)]
pub struct ByteTables {
    pub headers: ClassTable,
    pub first_bytes: LeadTable,
}
