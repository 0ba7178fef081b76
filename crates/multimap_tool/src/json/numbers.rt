//! Whole numbers as parts of JSON values.
ghost use Rattle.std.specs.Prelude.{true};

use super::faults::PartFault;
use super::parts::JsonPart;
use serde_json::Value;
use std::alloc::{AllocError, Global};

/// Written as a number. Reads whole numbers from 0 to 255.
impl JsonPart for u8 {
    ghost use Rattle.serde_json.specs.Data.{number, unsigned};
    ghost use Rattle.multimap_tool.specs.Json.{is_unsigned};

    ghost json = { λ part. number (unsigned part) };

    ghost is_part = { is_unsigned 8 };

    ghost is_written_freely = { true };

    ghost is_read_freely = { true };

    fn to_part(&self, _alloc: Global) -> Result<Value, AllocError> {
        Ok(Value::from(*self))
    }

    fn from_part(_alloc: Global, value: &Value) -> Result<u8, PartFault> {
        match value.as_u64() {
            Some(part) if part <= u8::MAX as u64 => Ok(part as u8),
            _ => Err(PartFault::Refused),
        }
    }
}

/// Written as a number. Reads whole numbers from 0 to 65,535.
impl JsonPart for u16 {
    ghost use Rattle.serde_json.specs.Data.{number, unsigned};
    ghost use Rattle.multimap_tool.specs.Json.{is_unsigned};

    ghost json = { λ part. number (unsigned part) };

    ghost is_part = { is_unsigned 16 };

    ghost is_written_freely = { true };

    ghost is_read_freely = { true };

    fn to_part(&self, _alloc: Global) -> Result<Value, AllocError> {
        Ok(Value::from(*self))
    }

    fn from_part(_alloc: Global, value: &Value) -> Result<u16, PartFault> {
        match value.as_u64() {
            Some(part) if part <= u16::MAX as u64 => Ok(part as u16),
            _ => Err(PartFault::Refused),
        }
    }
}

/// Written as a number. Reads whole numbers from 0 to 4,294,967,295.
impl JsonPart for u32 {
    ghost use Rattle.serde_json.specs.Data.{number, unsigned};
    ghost use Rattle.multimap_tool.specs.Json.{is_unsigned};

    ghost json = { λ part. number (unsigned part) };

    ghost is_part = { is_unsigned 32 };

    ghost is_written_freely = { true };

    ghost is_read_freely = { true };

    fn to_part(&self, _alloc: Global) -> Result<Value, AllocError> {
        Ok(Value::from(*self))
    }

    fn from_part(_alloc: Global, value: &Value) -> Result<u32, PartFault> {
        match value.as_u64() {
            Some(part) if part <= u32::MAX as u64 => Ok(part as u32),
            _ => Err(PartFault::Refused),
        }
    }
}

/// Written as a number. Reads whole numbers of 64 bits, from 0.
impl JsonPart for u64 {
    ghost use Rattle.serde_json.specs.Data.{number, unsigned};
    ghost use Rattle.multimap_tool.specs.Json.{is_unsigned};

    ghost json = { λ part. number (unsigned part) };

    ghost is_part = { is_unsigned 64 };

    ghost is_written_freely = { true };

    ghost is_read_freely = { true };

    fn to_part(&self, _alloc: Global) -> Result<Value, AllocError> {
        Ok(Value::from(*self))
    }

    fn from_part(_alloc: Global, value: &Value) -> Result<u64, PartFault> {
        value.as_u64().ok_or(PartFault::Refused)
    }
}

/// Written as a number. Reads whole numbers from -128 to 127.
impl JsonPart for i8 {
    ghost use Rattle.serde_json.specs.Data.{number};
    ghost use Rattle.serde_json.specs.Find.{of_integer};
    ghost use Rattle.multimap_tool.specs.Json.{is_signed};

    ghost json = { λ part. number (of_integer part) };

    ghost is_part = { is_signed 7 };

    ghost is_written_freely = { true };

    ghost is_read_freely = { true };

    fn to_part(&self, _alloc: Global) -> Result<Value, AllocError> {
        Ok(Value::from(*self))
    }

    fn from_part(_alloc: Global, value: &Value) -> Result<i8, PartFault> {
        match value.as_i64() {
            Some(part) if i8::MIN as i64 <= part && part <= i8::MAX as i64 => Ok(part as i8),
            _ => Err(PartFault::Refused),
        }
    }
}

/// Written as a number. Reads whole numbers from -32,768 to 32,767.
impl JsonPart for i16 {
    ghost use Rattle.serde_json.specs.Data.{number};
    ghost use Rattle.serde_json.specs.Find.{of_integer};
    ghost use Rattle.multimap_tool.specs.Json.{is_signed};

    ghost json = { λ part. number (of_integer part) };

    ghost is_part = { is_signed 15 };

    ghost is_written_freely = { true };

    ghost is_read_freely = { true };

    fn to_part(&self, _alloc: Global) -> Result<Value, AllocError> {
        Ok(Value::from(*self))
    }

    fn from_part(_alloc: Global, value: &Value) -> Result<i16, PartFault> {
        match value.as_i64() {
            Some(part) if i16::MIN as i64 <= part && part <= i16::MAX as i64 => Ok(part as i16),
            _ => Err(PartFault::Refused),
        }
    }
}

/// Written as a number. Reads whole numbers from -2,147,483,648 to 2,147,483,647.
impl JsonPart for i32 {
    ghost use Rattle.serde_json.specs.Data.{number};
    ghost use Rattle.serde_json.specs.Find.{of_integer};
    ghost use Rattle.multimap_tool.specs.Json.{is_signed};

    ghost json = { λ part. number (of_integer part) };

    ghost is_part = { is_signed 31 };

    ghost is_written_freely = { true };

    ghost is_read_freely = { true };

    fn to_part(&self, _alloc: Global) -> Result<Value, AllocError> {
        Ok(Value::from(*self))
    }

    fn from_part(_alloc: Global, value: &Value) -> Result<i32, PartFault> {
        match value.as_i64() {
            Some(part) if i32::MIN as i64 <= part && part <= i32::MAX as i64 => Ok(part as i32),
            _ => Err(PartFault::Refused),
        }
    }
}

/// Written as a number. Reads whole numbers of 64 bits, one of them for the sign.
impl JsonPart for i64 {
    ghost use Rattle.serde_json.specs.Data.{number};
    ghost use Rattle.serde_json.specs.Find.{of_integer};
    ghost use Rattle.multimap_tool.specs.Json.{is_signed};

    ghost json = { λ part. number (of_integer part) };

    ghost is_part = { is_signed 63 };

    ghost is_written_freely = { true };

    ghost is_read_freely = { true };

    fn to_part(&self, _alloc: Global) -> Result<Value, AllocError> {
        Ok(Value::from(*self))
    }

    fn from_part(_alloc: Global, value: &Value) -> Result<i64, PartFault> {
        value.as_i64().ok_or(PartFault::Refused)
    }
}
