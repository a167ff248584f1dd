//! Instructions without a field.
use ds2_base::Place;
use ds2_code::Instr;
use ds2_value::ValueFunction;

fn of_whole_numbers(word: &str) -> Option<Instr> {
    match word {
        "ITOD" => Some(Instr::IToD),
        "IADD" => Some(Instr::IAdd),
        "ISUB" => Some(Instr::ISub),
        "IMUL" => Some(Instr::IMul),
        "INEG" => Some(Instr::INeg),
        _ => None,
    }
}

fn of_decimals(word: &str) -> Option<Instr> {
    match word {
        "DADD" => Some(Instr::DAdd),
        "DSUB" => Some(Instr::DSub),
        "DMUL" => Some(Instr::DMul),
        "DDIV" => Some(Instr::DDiv),
        "DNEG" => Some(Instr::DNeg),
        _ => None,
    }
}

fn of_truth(word: &str) -> Option<Instr> {
    match word {
        "AND" => Some(Instr::And),
        "OR" => Some(Instr::Or),
        "NOT" => Some(Instr::Not),
        "ITRUTH" => Some(Instr::ITruth),
        "DTRUTH" => Some(Instr::DTruth),
        _ => None,
    }
}

fn of_texts(word: &str) -> Option<Instr> {
    match word {
        "CAT" => Some(Instr::Cat),
        "SHOW" => Some(Instr::Show),
        _ => None,
    }
}

fn function(word: &str) -> Option<ValueFunction> {
    match word {
        "IABS" => Some(ValueFunction::IntegerAbsolute),
        "IMOD" => Some(ValueFunction::IntegerModulo),
        "DABS" => Some(ValueFunction::DecimalAbsolute),
        "DMOD" => Some(ValueFunction::DecimalModulo),
        "DFLOOR" => Some(ValueFunction::Floor),
        "DCEIL" => Some(ValueFunction::Ceiling),
        "ISNULL" => Some(ValueFunction::IsNull),
        "LEN" => Some(ValueFunction::Length),
        "SUBSTR" => Some(ValueFunction::Substring),
        "SUBFROM" => Some(ValueFunction::SubstringFrom),
        "TRIM" => Some(ValueFunction::Trim),
        _ => None,
    }
}

fn of_ways(word: &str) -> Option<Instr> {
    match word {
        "DROP" => Some(Instr::DropTop),
        "TICK" => Some(Instr::Tick(Place::start())),
        "RET" => Some(Instr::Ret),
        "RETV" => Some(Instr::RetV),
        "NOWHEN" => Some(Instr::NoWhen),
        "END" => Some(Instr::End),
        _ => None,
    }
}

fn of_values(word: &str) -> Option<Instr> {
    match of_truth(word) {
        Some(instr) => Some(instr),
        None => of_texts(word),
    }
}

fn of_numbers(word: &str) -> Option<Instr> {
    match of_whole_numbers(word) {
        Some(instr) => Some(instr),
        None => of_decimals(word),
    }
}

/// The instruction of a word, where one without a field has it.
pub fn operation(word: &str) -> Option<Instr> {
    if let Some(instr) = of_ways(word) {
        return Some(instr);
    }
    if let Some(function) = function(word) {
        return Some(Instr::Apply(function));
    }
    match of_numbers(word) {
        Some(instr) => Some(instr),
        None => of_values(word),
    }
}
